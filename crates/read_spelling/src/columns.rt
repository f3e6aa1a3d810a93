// Elements that stand in some bytes, as one value.

ghost use Rattle.std.specs.Prelude.{◌≡◌, ◌+◌, ◌*◌, ◌^◌, ◌≤◌, ◌<◌, length, drop};
ghost use Rattle.definition.specs.Words.{word};

use words::read_word;

// The kind words and the measures of `count` elements stand from these bytes on. Not two `WordList`s: these would hold bytes and count twice, and that they agree
// would be two fields more.
#[derive(Clone, Copy)]
pub struct Columns<'a> {
    pub bytes: &'a [u8],
    pub kinds: usize,
    pub measures: usize,
    pub count: usize,
    pub ghost kinds_within: { kinds + 4 * count ≤ length bytes.now },
    pub ghost measures_within: { measures + 4 * count ≤ length bytes.now },
    pub ghost few: { count ≤ 4096 },
}

impl Columns<'_> {
    // The kind word and the measure of element `i`.
    pub fn get(&self, i: usize) -> (usize, usize)
        requires { i < self.now.count }
        ensures kind { (result.0 ≡ word (drop (self.now.kinds + 4 * i) self.now.bytes.now)) × (result.0 < 2 ^ 32) }
        ensures measure { (result.1 ≡ word (drop (self.now.measures + 4 * i) self.now.bytes.now)) × (result.1 < 2 ^ 32) }
    {
        (
            read_word(self.bytes, self.kinds + 4 * i),
            read_word(self.bytes, self.measures + 4 * i),
        )
    }
}
