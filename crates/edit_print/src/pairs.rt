// Pairs of numbers that stand in some bytes, as one value.

ghost use Rattle.std.specs.Prelude.{◌≡◌, ◌+◌, ◌*◌, ◌^◌, ◌≤◌, ◌<◌, length, drop};
ghost use Rattle.definition.specs.Words.{word};

use words::read_word;

// The first numbers of `count` pairs stand from `at` on, the second ones behind those. Not two `WordList`s, of which every clause would ask that they are equally long; nor one of both arrays, of which half the words would be the count;
// nor `Columns` of read_spelling, whose arrays stand anywhere and whose elements have a kind and a measure.
#[derive(Clone, Copy)]
pub struct Pairs<'a> {
    pub bytes: &'a [u8],
    pub at: usize,
    pub count: usize,
    pub ghost within: { at + 8 * count ≤ length bytes.now },
}

impl Pairs<'_> {
    // The first and the second number of pair `i`.
    pub fn get(&self, i: usize) -> (usize, usize)
        requires { i < self.now.count }
        ensures first { (result.0 ≡ word (drop (self.now.at + 4 * i) self.now.bytes.now)) × (result.0 < 2 ^ 32) }
        ensures second { (result.1 ≡ word (drop (self.now.at + 4 * self.now.count + 4 * i) self.now.bytes.now)) × (result.1 < 2 ^ 32) }
    {
        let seconds = self.at + 4 * self.count;
        (
            read_word(self.bytes, self.at + 4 * i),
            read_word(self.bytes, seconds + 4 * i),
        )
    }
}
