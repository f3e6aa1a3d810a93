// Bookmarks to be read, as one value.

ghost use Rattle.std.specs.Prelude.{◌+◌, ◌*◌, ◌^◌, ◌≤◌, ◌<◌, length};

// The first `count` bookmarks of `words`, whose first word is their count. It stands beside the slice, since it is read and bounded once; the lent slice may be longer.
#[derive(Clone, Copy)]
pub struct Bookmarks<'a> {
    pub count: usize,
    pub words: &'a [u32],
    pub ghost room: { 1 + 65 * count ≤ length words.now },
    pub ghost few: { count < 2 ^ 32 },
}
