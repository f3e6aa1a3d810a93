// What a run is to do, as its steps read it.

ghost use Rattle.std.specs.Prelude.{◌≤◌, length};

// The element table, the batch's own rows, its notes as first moved, the elements that the changes list (as bytes: run_prepare says why), and the change rows. What
// is known of them together with what is held at the time tells of the definition's trees, which are data: so it stands in clauses.
#[derive(Clone, Copy)]
pub struct Task<'a> {
    pub table: &'a [u32],
    pub source: &'a [u32],
    pub first: &'a [u32],
    pub listed: &'a [u8],
    pub changes: &'a [u32],
    pub ghost few: { length listed.now ≤ 4096 },
}
