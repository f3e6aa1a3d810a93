// What the row of a change tells one step of the run.
// Bounds of one number and an index of what is read stand as clauses: a value around each would be no plainer than its bound. Rows come with a place: record_changes
// says why.
#![tactic(auto)]

ghost use Rattle.std.specs.Prelude.{◌≡◌, ℕ, ◌^◌, ◌<◌, length};
ghost use Rattle.read_element_table.specs.Wellformed.{Lines};
ghost use Rattle.record_changes.specs.ChangeRowLaws.{row_at};
ghost use Rattle.run_tree_store.specs.Promises.{SiteAt};
ghost use Rattle.run_change.specs.Told.{AboveBy, records_by};

use read_element_table::{DEPTH, entry};
use record_changes::{Fate, Operation, field};
use run_tree_store::{Gap, TreeStore, find_gap};

// Where the change at place `k` goes, if its target is still there.
pub fn change_gap(store: &TreeStore, changes: &[u32], k: usize) -> Option<Gap>
    requires { (k < 2 ^ 32) × ((row_at changes.now k).target < length store.now.marks.now) × ((row_at changes.now k).end < length store.now.marks.now) }
    ensures { SiteAt store.now.rows.words.now store.now.rows.count store.now.table.now store.now.marks.now (row_at changes.now k).operation (row_at changes.now k).target (row_at changes.now k).end result }
{
    let operation = field(changes, k, record_changes::OPERATION);
    let x = field(changes, k, record_changes::TARGET);
    let y = field(changes, k, record_changes::END);
    find_gap(store, operation, x, y)
}

// The depth of the node below which the change at place `k` goes: 0 for the root of all. A first child goes below its target.
// The table, of some `n` elements, stays a slice: no row and no mark is asked for, as a `TreeStore` holds them.
pub fn depth_above(table: &[u32], changes: &[u32], k: usize) -> usize
    requires { (n : ℕ) × Lines n table.now × (k < 2 ^ 32) × ((row_at changes.now k).target < n) }
    ensures { AboveBy table.now (row_at changes.now k).operation (row_at changes.now k).target result }
{
    let x = field(changes, k, record_changes::TARGET);
    let depth = entry(table, x, DEPTH);
    if field(changes, k, record_changes::OPERATION) == Operation::FirstChild as usize {
        return depth;
    }
    depth - 1
}

// Rust: PlannedChange::record_as_changed. What the change at place `k` puts in is recorded as changed if it depends on no other (else its owner's is), and
// goes into tree 0: the rule number that it is recorded by, if it is.
#[tactic(auto, using(crate::proofs::Telling::not_recorded, crate::proofs::Telling::not_in_tree_0, crate::proofs::Telling::recorded_by))]
pub fn recorded_by(changes: &[u32], k: usize) -> Option<usize>
    requires { k < 2 ^ 32 }
    ensures { result ≡ records_by (row_at changes.now k) }
{
    if field(changes, k, record_changes::FATE) != Fate::Own as usize {
        return None;
    }
    if field(changes, k, record_changes::TREE) != 0 {
        return None;
    }
    Some(field(changes, k, record_changes::RULE))
}
