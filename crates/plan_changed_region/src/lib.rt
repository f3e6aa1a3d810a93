// What becomes of each change: own, dependent or discarded, by the regions of earlier changes. The region around a change is the one that its fate
// names, so the rows' own words hold the stacks: a stack is the place of its last region, and each region's owner is the one below.
// Rows have their count beside them: record_changes says why.
// Bounds of one number and room in a lent slice stand as clauses: a value around each would be no plainer than its bound.
// That last regions stand before the change (`All`), and the region around one before it (`Outward`), are clauses too: both slices are written at each turn.
#![tactic(auto)]

ghost use Rattle.std.specs.Prelude.{◌≡◌, cond, ◌++◌, suc, ◌+◌, ◌-◌, ◌*◌, ◌^◌, ◌≤◌, ◌<◌, length, set, drop, eqb};
ghost use Rattle.orders.specs.Lists.{All};
ghost use Rattle.definition.specs.Planning.{fate};
ghost use Rattle.record_changes.specs.ChangeRow.{rows_of, fate_of};
ghost use Rattle.record_changes.specs.Numbers.{fate_number};
ghost use Rattle.record_changes.specs.ChangeRowLaws.{row_at, rows_words};
ghost use Rattle.plan_sort.specs.Lists.{one_past};
ghost use Rattle.plan_changed_region.specs.Fates.{planned_rows};
ghost use Rattle.plan_changed_region.specs.Stacks.{outer, contains, stack_to, enclosing, Outward, stated};
ghost use Rattle.plan_changed_region.specs.Steps.{region_around, next_rows, next_tops};

use record_changes::{Fate, Region, field};
use words::word_or_zero;

// Whether the range of the change at place `j` contains the one from `from` to `to`, ends included.
fn contains_range(rows: &[u32], j: usize, from: usize, to: usize) -> bool
    requires { j < 2 ^ 32 }
    ensures { result ≡ contains (row_at rows.now j) from to }
{
    if from < field(rows, j, record_changes::FROM) {
        return false;
    }
    to <= field(rows, j, record_changes::TO)
}

// The place of the region around the change at place `j`.
#[tactic(auto, using(crate::proofs::Regions::outer_none, crate::proofs::Regions::outer_some))]
fn outer_region(rows: &[u32], j: usize) -> Option<usize>
    requires { j < 2 ^ 32 }
    ensures { one_past result ≡ outer (row_at rows.now j) }
{
    if field(rows, j, record_changes::FATE) == Fate::Own as usize {
        return None;
    }
    Some(field(rows, j, record_changes::OWNER))
}

// Rust: `rposition` over the regions in EditPlan::build. Of the stack whose last region is `region`: the place of the last region that contains the range from
// `from` to `to`. The way out from region to region has no range to count over: its loop stays.
#[tactic(auto, using(crate::proofs::Regions::popping_start, crate::proofs::Regions::popping_falls, crate::proofs::Regions::popping_next, crate::proofs::Regions::popping_found, crate::proofs::Regions::popping_none))]
fn enclosing_region(
    rows: &[u32],
    mut region: Option<usize>,
    from: usize,
    to: usize,
) -> Option<usize>
    requires { (one_past region ≤ 256) × Outward rows.now (one_past region) }
    ensures { one_past result ≡ enclosing from to rows.now (one_past region) (one_past region) }
{
    while let Some(j) = region {
        if contains_range(rows, j, from, to) {
            return region;
        }
        region = outer_region(rows, j);
    }
    None
}

// Rust: NestedChanges. The fate of a change by the region around it. Only a node that is replaced by a node, and is not discarded itself, has one counterpart
// into which inner targets can be mapped; else inner changes are dropped.
#[tactic(auto, using(crate::proofs::Regions::fate_none, crate::proofs::Regions::fate_under_discarded, crate::proofs::Regions::fate_dependent, crate::proofs::Regions::fate_discarded))]
fn fate_in(rows: &[u32], around: Option<usize>) -> Fate
    requires { one_past around ≤ 256 }
    ensures { fate_number result ≡ fate_of (fate (stack_to rows.now (one_past around) (one_past around))) }
{
    let Some(j) = around else {
        return Fate::Own;
    };
    if field(rows, j, record_changes::FATE) > Fate::Dependent as usize {
        return Fate::Discarded;
    }
    if field(rows, j, record_changes::REGION) == Region::NodeByNode as usize {
        Fate::Dependent
    } else {
        Fate::Discarded
    }
}

// The fate of the change at place `k`, by the region around it, is written into its row.
#[tactic(auto, using(crate::proofs::Regions::stated_by))]
fn state_fate(rows: &mut [u32], k: usize, around: Option<usize>)
    requires { (14 * k + 14 ≤ length rows.old) × (k < 256) × (one_past around ≤ k) }
    ensures { rows.new ≡ stated rows.old k (fate (stack_to rows.old k (one_past around))) }
{
    let fate = fate_in(rows, around);
    record_changes::write_fate(rows, k, fate, around.unwrap_or(0));
}

// The last region of a tree becomes `top`, stored as index + 1, 0 = none. Not by `get_mut`: the library does not tell what the slice holds after a write through it.
#[tactic(auto, using(crate::proofs::Regions::set_past))]
fn set_top(tops: &mut [u32], tree: usize, top: Option<usize>)
    requires { one_past top < 2 ^ 32 }
    ensures { tops.new ≡ set tops.old tree (one_past top) }
{
    if tree < tops.len() {
        tops[tree] = top.map_or(0, |j| j as u32 + 1);
    }
}

// Rust: ChangedRegion::for_change, pushed if there is one. The last region of its tree after the change at place `k`, by the region around it.
#[tactic(auto, using(crate::proofs::Regions::last_around, crate::proofs::Regions::last_itself))]
fn last_region(rows: &[u32], k: usize, around: Option<usize>) -> Option<usize>
    requires { (k < 256) × (one_past around ≤ k) }
    ensures { (one_past result ≡ cond (eqb (row_at rows.now k).region 0) (one_past around) (suc k)) × (one_past result ≤ 256) }
{
    if field(rows, k, record_changes::REGION) == Region::None as usize {
        around
    } else {
        Some(k)
    }
}

// The place of the region around the change at place `k`, by the last regions of each tree.
fn region_around(rows: &[u32], k: usize, tops: &[u32]) -> Option<usize>
    requires { (k < 256) × All (λ q. q ≤ k) tops.now × Outward rows.now k }
    ensures { (one_past result ≡ region_around rows.now tops.now k) × (one_past result ≤ k) }
{
    let last = word_or_zero(tops, field(rows, k, record_changes::TREE)).checked_sub(1);
    enclosing_region(
        rows,
        last,
        field(rows, k, record_changes::FROM),
        field(rows, k, record_changes::TO),
    )
}

// The change at place `k` gets its fate, and the stack of its tree becomes what it leaves.
#[tactic(auto, using(crate::proofs::Regions::rows_next, crate::proofs::Regions::tops_after))]
fn plan_change(rows: &mut [u32], k: usize, tops: &mut [u32])
    requires { (14 * k + 14 ≤ length rows.old) × (k < 256) × All (λ q. q ≤ k) tops.old × Outward rows.old k }
    ensures rows_after { rows.new ≡ next_rows rows.old tops.old k }
    ensures tops_after { tops.new ≡ next_tops rows.old tops.old k }
{
    let around = region_around(rows, k, tops);
    set_top(
        tops,
        field(rows, k, record_changes::TREE),
        last_region(rows, k, around),
    );
    state_fate(rows, k, around);
}

// Rust: EditPlan::build, the loop that fills PlanEntry. Each of `n` sorted changes gets its fate: the words FATE and OWNER of its row.
pub fn plan_fates(rows: &mut [u32], n: usize)
    requires { (14 * n ≤ length rows.old) × (n ≤ 256) }
    ensures { rows.new ≡ rows_words (planned_rows (rows_of n rows.old)) ++ drop (14 * n) rows.old }
{
    // Words, index + 1: the model's lists hold numbers, into which options would be turned in each clause.
    let mut tops = [0u32; 16];
    for k in 0..n {
        plan_change(rows, k, &mut tops);
    }
}
