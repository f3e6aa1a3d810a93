// The tree of a lent memory, to be read as one value.

ghost use Rattle.std.specs.Prelude.{◌+◌, ◌*◌, ◌≤◌, length, drop};
ghost use Rattle.definition.specs.Words.{word};

// Its bytes: two sizes at the front, and behind them all that these say.
#[derive(Clone, Copy)]
pub struct LentTree<'a> {
    pub bytes: &'a [u8],
    pub ghost sizes: { 8 ≤ length bytes.now },
    pub ghost whole: { 8 + 8 * word bytes.now + word (drop 4 bytes.now) ≤ length bytes.now },
}
