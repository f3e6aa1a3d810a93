// Rows to be read, as one value.

ghost use Rattle.std.specs.Prelude.{◌≡◌, ◌-◌, ◌*◌, ◌^◌, ◌≤◌, ◌<◌, length, take, drop};

use crate::ROW_WORDS;

// The first `count` rows of `words`, which may be longer: rows are read in the lent slice in which they are written. Not cut to them: the count would be a quotient of a
// length, and what is promised of the lent slice would be said of a part each time.
#[derive(Clone, Copy)]
pub struct Rows<'a> {
    pub count: usize,
    pub words: &'a [u32],
    pub ghost long: { 3 * count ≤ length words.now },
    pub ghost few: { count < 2 ^ 16 },
}

impl<'a> Rows<'a> {
    // The rows `p` up to `q`.
    pub fn between(&self, p: usize, q: usize) -> &'a [u32]
        requires { (p ≤ q) × (q ≤ self.now.count) }
        ensures { result.now ≡ take (3 * q - 3 * p) (drop (3 * p) self.now.words.now) }
    {
        &self.words[ROW_WORDS * p..ROW_WORDS * q]
    }
}
