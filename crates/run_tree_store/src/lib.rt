// The current trees as rows and marks: what a listed element yields, and where a change goes.
// Bounds of one number, the order of two numbers and an index of what is read stand as clauses: a value around each would be no plainer than its bound.
#![tactic(auto)]

ghost use Rattle.std.specs.Prelude.{◌≡◌, ◌+◌, ◌*◌, ◌≤◌, ◌<◌, length, get_or};
ghost use Rattle.orders.specs.Lists.{meant};
ghost use Rattle.run_model.specs.Store.{there};
ghost use Rattle.run_model.specs.Sums.{too_large_by};
ghost use Rattle.run_tree_store.specs.Promises.{Prepared, GapOf, GapAfter, GapRun, RunSite, SiteAt};
ghost use Rattle.run_tree_store.specs.Gaps.{parent_mark};

mod tree_store;
mod trees;

use read_element_table::{PARENT, TREE, entry, is_root};
use record_changes::Operation;
use rows_syntax_node::{Rows, child_row, children_between, rows_after, subtree};
pub use tree_store::TreeStore;
pub use trees::Trees;
use words::word;

// ── Where an element stands ──

// The row of element `x`, which is its mark: none for 0, that of an element that is gone.
pub fn row_of(marks: &[u32], x: usize) -> Option<usize>
    requires { x < length marks.now }
    ensures { meant result ≡ there (get_or marks.now x 0) }
{
    let m = word(marks, x);
    if m == 0 {
        return None;
    }
    Some(m)
}

// ── What a listed element yields ──

// Rust: TreeStore::prepare_element. The rows of element `e` with all that is below it: a run of the current rows while its mark is there, else of the
// batch's own.
pub fn prepared_rows<'a>(trees: &Trees<'a, '_>, source: &'a [u32], e: usize) -> &'a [u32]
    requires { (e < length trees.now.marks.now) × (length trees.now.marks.now ≤ 2048) × (3 * length trees.now.marks.now + 3 ≤ length source.now) }
    ensures { Prepared trees.now.rows.words.now trees.now.rows.count source.now trees.now.marks.now e result.now }
{
    let Some(m) = row_of(trees.marks, e) else {
        let own = Rows {
            count: trees.marks.len() + 1,
            words: source,
        };
        return subtree(&own, e + 1);
    };
    subtree(&trees.rows, m)
}

// ── Where a change goes ──

// The rows `from` up to `to` below the row `parent`, which are `lost` trees.
#[derive(Clone, Copy)]
pub struct Gap {
    pub parent: usize,
    pub from: usize,
    pub to: usize,
    pub lost: usize,
}

// The row of the parent of element `x`: 0, the root of all, for a root.
#[tactic(auto, using(crate::proofs::Turns::parent_reach, crate::proofs::Turns::parent_found, crate::proofs::Turns::parent_top))]
fn parent_row(store: &TreeStore, x: usize) -> usize
    requires { x < length store.now.marks.now }
    ensures { result ≡ parent_mark store.now.table.now store.now.marks.now x }
{
    entry(store.table, x, PARENT)
        .checked_sub(1)
        .map_or(0, |p| word(store.marks, p))
}

// The element `x` at row `m` gives way.
#[tactic(auto, using(crate::proofs::Turns::gap_of_lem))]
fn gap_of(store: &TreeStore, x: usize, m: usize) -> Gap
    requires { (m ≤ store.now.rows.count) × (x < length store.now.marks.now) }
    ensures { GapOf store.now.rows.words.now store.now.rows.count store.now.table.now store.now.marks.now x m result }
{
    let parent = parent_row(store, x);
    let to = rows_after(&store.rows, m, 1);
    Gap {
        parent,
        from: m,
        to,
        lost: 1,
    }
}

// The place behind the element `x` at row `m`.
#[tactic(auto, using(crate::proofs::Turns::gap_after_lem))]
fn gap_after(store: &TreeStore, x: usize, m: usize) -> Gap
    requires { (m ≤ store.now.rows.count) × (x < length store.now.marks.now) }
    ensures { GapAfter store.now.rows.words.now store.now.rows.count store.now.table.now store.now.marks.now x m result }
{
    let parent = parent_row(store, x);
    let to = rows_after(&store.rows, m, 1);
    Gap {
        parent,
        from: to,
        to,
        lost: 0,
    }
}

// The run from the element `x` at row `m` to the element at row `k`, of no tree if its end comes first.
#[tactic(auto, using(crate::proofs::Turns::gap_run_lem))]
fn gap_run(store: &TreeStore, x: usize, m: usize, k: usize) -> Gap
    requires { (k ≤ store.now.rows.count) × (x < length store.now.marks.now) }
    ensures { GapRun store.now.rows.words.now store.now.rows.count store.now.table.now store.now.marks.now x m k result }
{
    let parent = parent_row(store, x);
    let to = rows_after(&store.rows, k, 1);
    let lost = children_between(&store.rows, m.min(to), to);
    Gap {
        parent,
        from: m,
        to,
        lost,
    }
}

// The run from the element `x` at row `m` to the element `y`, if that is still there.
fn run_site(store: &TreeStore, x: usize, m: usize, y: usize) -> Option<Gap>
    requires { (x < length store.now.marks.now) × (y < length store.now.marks.now) }
    ensures { RunSite store.now.rows.words.now store.now.rows.count store.now.table.now store.now.marks.now x m y result }
{
    let k = row_of(store.marks, y)?;
    Some(gap_run(store, x, m, k))
}

// Where a call 2 on the element `x` goes, if that is still there: a root is found by counting, and needs no mark, since its mark is gone once it was replaced before.
fn replaced_site(store: &TreeStore, x: usize) -> Option<Gap>
    requires { x < length store.now.marks.now }
    ensures { SiteAt store.now.rows.words.now store.now.rows.count store.now.table.now store.now.marks.now 2 x x result }
{
    if is_root(store.table, x) {
        let t = entry(store.table, x, TREE);
        let top = child_row(&store.rows, 0, t);
        return Some(gap_of(store, x, top));
    }
    let m = row_of(store.marks, x)?;
    Some(gap_of(store, x, m))
}

// Rust: TreeState::apply, what it finds before it splices (TreeState::map_original_element). Where a change goes, by its operation, its target `x` and its end
// `y`: none if a mark that it needs is gone, where the Rust panics.
// The operation stays a number: any may come, and all but four are one gap.
pub fn find_gap(store: &TreeStore, operation: usize, x: usize, y: usize) -> Option<Gap>
    requires { (x < length store.now.marks.now) × (y < length store.now.marks.now) }
    ensures { SiteAt store.now.rows.words.now store.now.rows.count store.now.table.now store.now.marks.now operation x y result }
{
    if operation == Operation::Replace as usize {
        return replaced_site(store, x);
    }
    let m = row_of(store.marks, x)?;
    if operation == Operation::FirstChild as usize {
        return Some(Gap {
            parent: m,
            from: m + 1,
            to: m + 1,
            lost: 0,
        });
    }
    if operation == Operation::After as usize {
        return Some(gap_after(store, x, m));
    }
    if operation == Operation::ReplaceAll as usize {
        return run_site(store, x, m, y);
    }
    Some(gap_of(store, x, m))
}

// ── Refusal 12 ──

// The most notes that may be held.
pub const MOST_NOTES: usize = 1024;

// Whether a step makes too much, by the rows, text bytes and notes that there would be, and by the depth of what comes in.
#[tactic(auto, unfolding(run_model::specs::Sums::too_large_by))]
pub fn too_large(rows: usize, bytes: usize, notes: usize, depth: usize) -> bool
    ensures { result ≡ too_large_by rows bytes notes depth }
{
    4097 < rows || 16384 < bytes || MOST_NOTES < notes || 64 < depth
}
