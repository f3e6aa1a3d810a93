// Tree 0 among the rows that a run leaves: it stands first, right behind the node above all trees.
// Bounds of one number stand as clauses: a value around each would be no plainer than its bound.
#![tactic(auto)]

ghost use Rattle.std.specs.Prelude.{◌≡◌, ◌+◌, ◌*◌, ◌≤◌, length};
ghost use Rattle.rows_model.specs.Place.{in_run};
ghost use Rattle.rows_syntax_node.specs.Promises.{Part};
ghost use Rattle.finish_model.specs.Numbered.{told};

mod left;

pub use left::Left;
use rows_syntax_node::{Rows, subtree};

// The row of tree 0's root.
pub const ROOT: usize = 1;

// The rows of tree 0.
#[tactic(auto, using(crate::proofs::Numbers::tree_short))]
pub fn first_tree<'a>(rows: &Rows<'a>) -> &'a [u32]
    requires { 1 ≤ rows.now.count }
    ensures part { Part rows.now.words.now rows.now.count 1 result.now }
    ensures short { length result.now + 3 ≤ 3 * rows.now.count }
{
    subtree(rows, ROOT)
}

// The number in tree 0 of the element at a row, where that is one of the rows 1 up to `end`.
#[tactic(auto, using(crate::specs::Numbered::numbered, crate::specs::Numbered::unnumbered))]
pub fn number_at(row: usize, end: usize) -> Option<usize>
    ensures { result ≡ told (in_run 1 end row) }
{
    if end <= row {
        return None;
    }
    row.checked_sub(ROOT)
}
