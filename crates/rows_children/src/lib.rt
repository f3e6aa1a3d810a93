// What the rows of trees tell of children, for every row at once, in tables of words that are lent: then each step down a path, and each child number, takes a few reads.
// Room in a lent slice and a bound of one number stand as clauses: a value around each would be no plainer than its bound.
#![tactic(auto)]

ghost use Rattle.std.specs.Prelude.{◌≡◌, ◌+◌, ◌^◌, ◌≤◌, ◌<◌, length, get_or};
ghost use Rattle.rows_children.specs.Tables.{ChildrenTold, BegunTold, RowAt};

mod children;

pub use children::Children;
use rows_syntax_node::{Rows, child_count};
use words::{copy_in, word_or_zero};

// The row of child `i` of the node at row `parent`, by the two tables of `fill_children`. They come as they are: who walks down the rows of a run has them in a value of its own.
pub fn child_at(first: &[u32], child: &[u32], parent: usize, i: usize) -> usize
    requires { i < 2 ^ 32 }
    ensures { (result ≡ get_or child.now (get_or first.now parent 0 + i) 0) × (result < 2 ^ 32) }
{
    word_or_zero(child, word_or_zero(first, parent) + i)
}

// The children of every row, told in `first` and `child`. From the last row to the first: the trees that begin behind a row have their roots in `roots`, in their order, and
// the first of them are its children.
pub fn fill_children(rows: &Rows, roots: &mut [u32], first: &mut [u32], child: &mut [u32])
    requires { (rows.now.count ≤ length roots.old) × (rows.now.count ≤ length first.old) × (rows.now.count ≤ length child.old) }
    ensures { ChildrenTold rows.now.words.now rows.now.count first.new child.new }
{
    let n = rows.count;
    let mut top = n;
    let mut to = 0;
    for i in (0..n).rev() {
        // Rows that are no tree's may owe more than there are.
        let c = child_count(rows.words, i).min(n - top);
        first[i] = to as u32;
        copy_in(child, to, &roots[top..top + c]);
        to += c;
        top = top + c - 1;
        roots[top] = i as u32;
    }
}

// How many trees begin from each row on: from a child on as many fewer than from behind its parent as its number tells.
pub fn fill_begun(rows: &Rows, begun: &mut [u32])
    requires { rows.now.count ≤ length begun.old }
    ensures { BegunTold rows.now.words.now rows.now.count begun.new }
{
    let mut trees: usize = 0;
    for i in (0..rows.count).rev() {
        trees = trees.saturating_sub(child_count(rows.words, i)) + 1;
        begun[i] = trees as u32;
    }
}

// Rust: SyntaxPath::resolve. The row of the element to which child numbers lead from the root of a tree. Beside `rows_path::resolve`, which passes over the rows, needs no tables and tells where
// the text starts. Of rows that are no tree's it may tell any row.
pub fn row_at(children: &Children, path: &[u32]) -> Option<usize>
    ensures { RowAt children.now.rows.words.now children.now.rows.count path.now result }
{
    let rows = children.rows;
    let mut at = 0;
    // A `for`, since it carries the row and leaves where there is no such child.
    for step in path {
        let i = *step as usize;
        if rows.count <= at || child_count(rows.words, at) <= i {
            return None;
        }
        at = child_at(children.first, children.child, at, i);
    }
    Some(at)
}
