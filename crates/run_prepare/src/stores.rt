// What listed elements are taken from, as one value.

ghost use Rattle.std.specs.Prelude.{◌+◌, ◌*◌, ◌≤◌, length};

use run_tree_store::Trees;

// Rust: TreeStore, as prepare_element reads it. The trees as they are now, with the notes that are held, and the batch's own rows, with its notes as first
// moved.
#[derive(Clone, Copy)]
pub struct Stores<'a, 'b, 'c> {
    pub trees: Trees<'a, 'b>,
    pub notes: &'c [u32],
    pub source: &'c [u32],
    pub first: &'c [u32],
    pub ghost few_rows: { trees.rows.count ≤ 4097 },
    pub ghost few: { length trees.marks.now ≤ 2048 },
    pub ghost long: { 3 * length trees.marks.now + 3 ≤ length source.now },
    pub ghost few_notes: { length notes.now ≤ 3072 },
    pub ghost few_first: { length first.now ≤ 768 },
}
