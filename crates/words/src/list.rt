// Words that stand in some bytes, as one value.

ghost use Rattle.std.specs.Prelude.{◌≡◌, ◌+◌, ◌*◌, ◌^◌, ◌≤◌, ◌<◌, length, get_or};

// The `count` words that stand in `bytes` from `at` on. Not a part of the bytes: its count would be a quotient of a length, and what is said of a batch, whose lists are
// told by where they start, would be said of each part again; no plainer.
#[derive(Clone, Copy)]
pub struct WordList<'a> {
    pub bytes: &'a [u8],
    pub at: usize,
    pub count: usize,
    pub ghost within: { at + 4 * count ≤ length bytes.now },
}

impl<'a> WordList<'a> {
    ghost use Rattle.words.specs.List.{words_of};

    // Word `i`, 0 past the end, as the definition's lists answer: an option would be opened by each caller to the same number.
    #[tactic(auto, using(crate::specs::List::word_there, crate::specs::List::none_there))]
    pub fn get(&self, i: usize) -> usize
        ensures { (result ≡ get_or (words_of self.now) i 0) × (result < 2 ^ 32) }
    {
        if i < self.count {
            return crate::read_word(self.bytes, self.at + 4 * i);
        }
        0
    }

    // The `count` words from number `from` on.
    pub fn part(&self, from: usize, count: usize) -> WordList<'a>
        requires { from + count ≤ self.now.count }
        ensures { (result.bytes.now ≡ self.now.bytes.now) × (result.at ≡ self.now.at + 4 * from) × (result.count ≡ count) }
    {
        WordList {
            bytes: self.bytes,
            at: self.at + 4 * from,
            count,
        }
    }
}
