// `find_element`: where the old node's text starts, and in the new tree the first node in preorder with its kind word and that start.
// Bounds of one number and an index of what is read stand as clauses: a value around each would be no plainer than its bound. That the elements are those of some trees
// (`TreesTold`) is a clause since it names the trees, which are data.
#![tactic(auto)]

ghost use Rattle.std.specs.Prelude.{◌≡◌, List, ℕ, ◌≤◌, ◌<◌, length};
ghost use Rattle.definition.specs.Elements.{row, tree as tree_of};
ghost use Rattle.read_element_table.specs.Held.{view_of};
ghost use Rattle.rows_model.specs.Row.{first_rows};
ghost use Rattle.finish_model.specs.Finished.{first_tree};
ghost use Rattle.finish_model.specs.Alike.{alike_words, find_row};
ghost use Rattle.finish_find.specs.Found.{found};
ghost use Rattle.finish_find.specs.OldStart.{TreesTold, PathFrom};

use finish_model::ROOT;
use read_element_table::{AFTER, CHILD, Elements, PARENT, entry};
use rows_path::resolve;
use rows_syntax_node::{ROW_WORDS, Rows, child_count, text_length};
use words::{NODE_KIND, word};

// ── The old node ──

// The path of element `k` in its tree: the child numbers from the root down to it. They are written upward from the end of `path`, and so stand there
// in order. Where they begin.
#[tactic(auto, using(crate::proofs::OldPath::rising_entry))]
fn path_in_tree(elements: &Elements, k: usize, path: &mut [u32; 64]) -> usize
    requires { (k < elements.now.count) × (length path.old ≡ 64) }
    ensures { PathFrom elements.now.count elements.now.table.now k path.new result }
{
    let table = elements.table;
    let mut at = k;
    let mut from: usize = 64;
    // A climb has no bound to count to but its elements: as a range of 64 steps it would owe a case behind it that never comes.
    while let Some(parent) = entry(table, at, PARENT).checked_sub(1) {
        from -= 1;
        path[from] = entry(table, at, CHILD) as u32;
        at = parent;
    }
    from
}

// Where the text of element `k` of tree 0 starts there: what resolving its path gives, in the batch's own rows.
pub fn old_start(elements: &Elements, k: usize) -> usize
    requires trees_told { TreesTold elements.now.count elements.now.table.now elements.now.source.now }
    requires k_in_bounds { (k < elements.now.count) × (tree_of (view_of elements.now) k ≡ 0) }
    ensures { result ≡ (row (view_of elements.now) k).start }
{
    let mut path = [0u32; 64];
    let from = path_in_tree(elements, k, &mut path);
    let end = entry(elements.table, 0, AFTER);
    let to = ROW_WORDS * (end + 1);
    // Its own path leads to it.
    let found = resolve(&elements.source[ROW_WORDS..to], &path[from..]).unwrap();
    found.start
}

// ── In the new tree ──

// Whether a kind word is a node's, and it and a text start are those looked for.
#[tactic(auto, unfolding(finish_model::specs::Alike::alike_words, definition::specs::Elements::is_node))]
fn is_alike(kind: usize, start: usize, other: usize, sum: usize) -> bool
    ensures { result ≡ alike_words kind start other sum }
{
    NODE_KIND <= other && other == kind && sum == start
}

// The number of the first node of tree 0 with this kind word and text start, from the rows of all trees. The tree ends where no element is owed: each row is one owed
// less, and a node's row owes its children. So the tree is walked once; over `first_tree` its end would be looked for first, a second walk.
pub fn find_in_tree(rows: &Rows, kind: usize, start: usize) -> Option<usize>
    requires { 1 ≤ rows.now.count }
    ensures { (text : List ℕ) → result ≡ found (find_row (first_tree (first_rows text rows.now.count rows.now.words.now)) kind start) }
{
    let mut sum = 0;
    let mut owed = 1;
    // Tokens and nodes are told apart first: to ask each row for both its text and its children takes longer.
    for i in ROOT..rows.count {
        let other = word(rows.words, ROW_WORDS * i);
        if other < NODE_KIND {
            sum += text_length(rows.words, i);
        } else if is_alike(kind, start, other, sum) {
            return Some(i - ROOT);
        } else {
            owed += child_count(rows.words, i);
        }
        owed -= 1;
        if owed == 0 {
            return None;
        }
    }
    None
}
