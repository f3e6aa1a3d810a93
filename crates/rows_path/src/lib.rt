// Paths in the rows of a tree: the element to which a path leads, and where its text starts.
// Bounds of one number stand as clauses: a value around each would be no plainer than its bound.
#![tactic(auto)]

ghost use Rattle.std.specs.Prelude.{◌*◌, ◌^◌, ◌≤◌, ◌<◌, length};
ghost use Rattle.rows_path.specs.Promises.{Passes, Resolves};

use rows_syntax_node::{ROW_WORDS, Rows, child_count, text_length};

// An element: its row, and where its text starts in its tree.
#[derive(Clone, Copy)]
pub struct Resolved {
    pub row: usize,
    pub start: usize,
}

// The row after some trees, and the length of their text.
#[derive(Clone, Copy)]
struct Passed {
    row: usize,
    text: usize,
}

// The next `owed` trees from row `at` on. Beside rows_syntax_node's `rows_after` and `text_bytes`: over these two the rows would be walked twice.
fn pass_trees(rows: &Rows, at: usize, owed: usize) -> Passed
    requires { (at ≤ rows.now.count) × (owed < 2 ^ 32) }
    ensures { Passes rows.now.words.now rows.now.count at owed result }
{
    let mut o = owed;
    let mut text = 0;
    // A `for`, since it carries what is owed and leaves when nothing is.
    for i in at..rows.count {
        if o == 0 {
            return Passed { row: i, text };
        }
        o = o - 1 + child_count(rows.words, i);
        text += text_length(rows.words, i);
    }
    Passed {
        row: rows.count,
        text,
    }
}

// Rust: SyntaxPath::resolve. The element to which child numbers lead from the root of a tree, given by the part of the rows that is the tree's own.
pub fn resolve(tree: &[u32], path: &[u32]) -> Option<Resolved>
    requires { length tree.now < 3 * 2 ^ 16 }
    ensures { Resolves tree.now path.now result }
{
    let n = tree.len() / ROW_WORDS;
    let rows = Rows {
        count: n,
        words: tree,
    };
    let mut at = 0;
    // What stands before it in preorder are the nodes above it, which have no text of their own, and all that is left of the way down.
    let mut start = 0;
    // A `for`, since it carries the row and its start, and leaves where there is no such child.
    for step in path {
        if n <= at {
            return None;
        }
        let i = *step as usize;
        if child_count(tree, at) <= i {
            return None;
        }
        let before = pass_trees(&rows, at + 1, i);
        at = before.row;
        start += before.text;
    }
    if n <= at {
        return None;
    }
    Some(Resolved { row: at, start })
}
