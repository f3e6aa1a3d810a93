// What becomes of each change by edge rule 1: own, dependent or discarded, by where it stands in the tree. The Rust goes by offsets: plan_changed_region.
// Rows have their count beside them: record_changes says why. The table comes alone and not in `Elements`, since nothing is asked of it: past its end words are 0.
// Rows and table are no one value: no fact binds them, the rows are written between, and each clause would name both through the value.
// Bounds of one number and room in a lent slice stand as clauses: a value around each would be no plainer than its bound.
// A run's ends stay two numbers: no fact binds them, and each clause names the words of one or the other.
// That a change is no root's replacement and has the target parent `p` is a clause of two functions: both are found once for all regions that are asked.
#![tactic(auto)]

ghost use Rattle.std.specs.Prelude.{◌≡◌, false, ◌++◌, ◌+◌, ◌-◌, ◌*◌, ◌^◌, ◌≤◌, ◌<◌, length, get_or, drop};
ghost use Rattle.record_changes.specs.ChangeRow.{fate_of};
ghost use Rattle.record_changes.specs.Numbers.{fate_number};
ghost use Rattle.record_changes.specs.ChangeRowLaws.{row_at, rows_words};
ghost use Rattle.plan_sort.specs.Lists.{one_past};
ghost use Rattle.plan_changed_region.specs.Stacks.{stated};
ghost use Rattle.plan_edge.specs.Rule.{parent_or_root, target_parent, of_root, in_run, removes, only_in, is_run_of, inside, takes, region_depth, innermost, region_from, regions_of, is_discarded, fate_at, fated_rows, edge_rows};

use read_element_table::PARENT;
use record_changes::{Fate, Operation, Region, field};
use words::word_or_zero;

// ── Where elements stand ──

// Word `k` of element `e`, 0 past the end: `read_element_table::entry` asks that the table has the element, which no row tells here.
fn entry(table: &[u32], e: usize, k: usize) -> usize
    requires { (e < 2 ^ 32) × (k < 8) }
    ensures { (result ≡ get_or table.now (8 * e + k) 0) × (result < 2 ^ 32) }
{
    word_or_zero(table, read_element_table::WORDS * e + k)
}

// The parent of `x`; of a root, the root.
#[tactic(auto, using(crate::proofs::Tests::parent_or_itself))]
fn parent_or_root(table: &[u32], x: usize) -> usize
    requires { x < 2 ^ 32 }
    ensures { result ≡ parent_or_root table.now x }
{
    entry(table, x, PARENT).checked_sub(1).unwrap_or(x)
}

// Whether `e` is one of the siblings from `x` to `y`.
fn in_run(table: &[u32], x: usize, y: usize, e: usize) -> bool
    requires { (x < 2 ^ 32) × (y < 2 ^ 32) × (e < 2 ^ 32) }
    ensures { result ≡ in_run table.now x y e }
{
    if entry(table, e, PARENT) != entry(table, x, PARENT) {
        return false;
    }
    let i = entry(table, e, read_element_table::CHILD);
    if i < entry(table, x, read_element_table::CHILD) {
        return false;
    }
    i <= entry(table, y, read_element_table::CHILD)
}

// ── What a region takes ──

// Rust: Change::target_parent.
#[tactic(auto, using(crate::proofs::Tests::first_child_parent, crate::proofs::Tests::other_target_parent))]
fn target_parent(rows: &[u32], table: &[u32], k: usize) -> usize
    requires { k < 2 ^ 32 }
    ensures { result ≡ target_parent table.now (row_at rows.now k) }
{
    let x = field(rows, k, record_changes::TARGET);
    if field(rows, k, record_changes::OPERATION) == Operation::FirstChild as usize {
        return x;
    }
    parent_or_root(table, x)
}

// Whether the change at place `k` is a root's replacement.
#[tactic(auto, using(crate::proofs::Tests::no_replacement, crate::proofs::Tests::replacement_of))]
fn of_root(rows: &[u32], table: &[u32], k: usize) -> bool
    requires { k < 2 ^ 32 }
    ensures { result ≡ of_root table.now (row_at rows.now k) }
{
    if field(rows, k, record_changes::OPERATION) != Operation::Replace as usize {
        return false;
    }
    entry(table, field(rows, k, record_changes::TARGET), PARENT) == 0
}

// Whether `e` is at or below what the change at place `j` replaces: an interval of elements.
fn removes_element(rows: &[u32], table: &[u32], j: usize, e: usize) -> bool
    requires { j < 2 ^ 32 }
    ensures { result ≡ removes table.now (row_at rows.now j) e }
{
    if e < field(rows, j, record_changes::TARGET) {
        return false;
    }
    e < entry(
        table,
        field(rows, j, record_changes::END),
        read_element_table::AFTER,
    )
}

// Whether the change at place `k` replaces only elements of the run from `x` to `y`, or inserts between two of them.
#[tactic(auto, using(crate::proofs::Tests::first_child_none, crate::proofs::Tests::target_outside, crate::proofs::Tests::insert_before_last, crate::proofs::Tests::replaces_to))]
fn only_in(rows: &[u32], table: &[u32], x: usize, y: usize, k: usize) -> bool
    requires { (k < 2 ^ 32) × (x < 2 ^ 32) × (y < 2 ^ 32) }
    ensures { result ≡ only_in table.now x y (row_at rows.now k) }
{
    let operation = field(rows, k, record_changes::OPERATION);
    let e = field(rows, k, record_changes::TARGET);
    if operation == Operation::FirstChild as usize {
        return false;
    }
    if !in_run(table, x, y, e) {
        return false;
    }
    if operation == Operation::After as usize {
        return e != y;
    }
    in_run(table, x, y, field(rows, k, record_changes::END))
}

// Whether the change at place `k` is a run from `x` to `y`.
#[tactic(auto, using(crate::proofs::Tests::no_run, crate::proofs::Tests::other_start, crate::proofs::Tests::same_start))]
fn is_run_of(rows: &[u32], x: usize, y: usize, k: usize) -> bool
    requires { k < 2 ^ 32 }
    ensures { result ≡ is_run_of x y (row_at rows.now k) }
{
    if field(rows, k, record_changes::OPERATION) != Operation::ReplaceAll as usize {
        return false;
    }
    if field(rows, k, record_changes::TARGET) != x {
        return false;
    }
    field(rows, k, record_changes::END) == y
}

// Whether the change at place `j` is a run that has the one at place `k` inside.
#[tactic(auto, using(crate::proofs::Tests::no_run_around, crate::proofs::Tests::not_only_in, crate::proofs::Tests::other_run, crate::proofs::Tests::equal_run))]
fn is_inside(rows: &[u32], table: &[u32], j: usize, k: usize) -> bool
    requires { (j < 2 ^ 32) × (k < 2 ^ 32) }
    ensures { result ≡ inside table.now j (row_at rows.now j) k (row_at rows.now k) }
{
    if field(rows, j, record_changes::OPERATION) != Operation::ReplaceAll as usize {
        return false;
    }
    let x = field(rows, j, record_changes::TARGET);
    let y = field(rows, j, record_changes::END);
    if !only_in(rows, table, x, y, k) {
        return false;
    }
    if !is_run_of(rows, x, y, k) {
        return true;
    }
    j < k
}

// Whether the change at place `k`, no root's replacement and with the target parent `p`, belongs to the region of the one at place `j`.
#[tactic(auto, using(crate::proofs::Tests::no_region, crate::proofs::Tests::removes_parent, crate::proofs::Tests::or_inside))]
fn takes_change(rows: &[u32], table: &[u32], k: usize, p: usize, j: usize) -> bool
    requires j_bound { (j < 2 ^ 32) × (k < 2 ^ 32) }
    requires k_value { (of_root table.now (row_at rows.now k) ≡ false) × (p ≡ target_parent table.now (row_at rows.now k)) }
    ensures { result ≡ takes table.now j (row_at rows.now j) k (row_at rows.now k) }
{
    if field(rows, j, record_changes::REGION) == Region::None as usize {
        return false;
    }
    if removes_element(rows, table, j, p) {
        return true;
    }
    is_inside(rows, table, j, k)
}

// ── The innermost ──

// The depth by which regions are compared: that of the target parent, 0 for a root's replacement.
#[tactic(auto, using(crate::proofs::Regions::root_depth, crate::proofs::Regions::parent_depth_lem))]
fn region_depth(rows: &[u32], table: &[u32], k: usize) -> usize
    requires { k < 2 ^ 32 }
    ensures { (result ≡ region_depth table.now (row_at rows.now k)) × (result < 2 ^ 32) }
{
    if of_root(rows, table, k) {
        return 0;
    }
    field(rows, k, record_changes::DEPTH)
}

// The innermost region that takes that change, of those from place `j` on, if it is `behind` of those behind.
fn innermost_of(
    rows: &[u32],
    table: &[u32],
    k: usize,
    p: usize,
    j: usize,
    behind: Option<usize>,
) -> Option<usize>
    requires k_bound { (k < 2 ^ 32) × (j < 256) × (one_past behind ≤ 256) }
    requires k_value { (of_root table.now (row_at rows.now k) ≡ false) × (p ≡ target_parent table.now (row_at rows.now k)) }
    ensures { (one_past result ≡ innermost table.now rows.now k j (one_past behind)) × (one_past result ≤ 256) }
{
    if !takes_change(rows, table, k, p, j) {
        return behind;
    }
    let Some(i) = behind else {
        return Some(j);
    };
    let there = region_depth(rows, table, i);
    let here = region_depth(rows, table, j);
    if there < here {
        return Some(j);
    }
    behind
}

// The region of the change at place `k` among `n`. From the last to the first: so among equals the last stays. A `for`: over `fold` the same invariant would go
// through `fold_over`, with the range read backward shown first (as in plan_overlap); no plainer.
fn region_of(rows: &[u32], n: usize, table: &[u32], k: usize) -> Option<usize>
    requires { (n ≤ 256) × (k < 2 ^ 32) }
    ensures { (one_past result ≡ region_from table.now rows.now k 0 n) × (one_past result ≤ 256) }
{
    if of_root(rows, table, k) {
        return None;
    }
    let p = target_parent(rows, table, k);
    let mut region = None;
    for j in (0..n).rev() {
        region = innermost_of(rows, table, k, p, j, region);
    }
    region
}

// The region of each change, as many as `regions` holds: index + 1, 0 = none.
fn find_regions(rows: &[u32], table: &[u32], regions: &mut [u32])
    requires { length regions.old ≤ 256 }
    ensures { regions.new ≡ regions_of table.now rows.now (length regions.old) }
{
    let n = regions.len();
    for (k, region) in regions.iter_mut().enumerate() {
        *region = region_of(rows, n, table, k).map_or(0, |j| j as u32 + 1);
    }
}

// ── Fates ──

// Whether the change at place `k` is discarded, if at most `most` regions decide it: one around another, up to the first that is no call 2 of a node by a node.
// Each turn goes on from the region around, so that no range or slice lists what is asked.
fn is_discarded(rows: &[u32], regions: &[u32], most: usize, k: usize) -> bool
    requires { k < 2 ^ 32 }
    ensures { result ≡ is_discarded rows.now regions.now most k }
{
    let mut at = k;
    for _ in 0..most {
        let Some(j) = word_or_zero(regions, at).checked_sub(1) else {
            return false;
        };
        if field(rows, j, record_changes::REGION) != Region::NodeByNode as usize {
            return true;
        }
        at = j;
    }
    false
}

// The fate of the change at place `k`.
#[tactic(auto, using(crate::proofs::Stating::own_fate, crate::proofs::Stating::discarded_fate, crate::proofs::Stating::dependent_fate))]
fn fate_of(rows: &[u32], table: &[u32], regions: &[u32], k: usize) -> Fate
    requires { k < 2 ^ 32 }
    ensures { fate_number result ≡ fate_of (fate_at table.now rows.now regions.now k) }
{
    if word_or_zero(regions, k) == 0 {
        return Fate::Own;
    }
    if is_discarded(rows, regions, region_depth(rows, table, k) + 1, k) {
        return Fate::Discarded;
    }
    Fate::Dependent
}

// The fate of the change at place `k` is written into its row.
#[tactic(auto, using(crate::proofs::Stating::stated_by))]
fn state_fate(rows: &mut [u32], table: &[u32], regions: &[u32], k: usize)
    requires { (14 * k + 14 ≤ length rows.old) × (k < 256) }
    ensures { rows.new ≡ stated rows.old k (fate_at table.now rows.old regions.now k) }
{
    let fate = fate_of(rows, table, regions, k);
    let owner = word_or_zero(regions, k).saturating_sub(1);
    record_changes::write_fate(rows, k, fate, owner);
}

// The fates of the changes, by the region of each.
fn state_fates(rows: &mut [u32], table: &[u32], regions: &[u32])
    requires { (14 * length regions.now ≤ length rows.old) × (length regions.now ≤ 256) }
    ensures { rows.new ≡ rows_words (fated_rows table.now rows.old regions.now (length regions.now)) ++ drop (14 * length regions.now) rows.old }
{
    for k in 0..regions.len() {
        state_fate(rows, table, regions, k);
    }
}

// Each of `n` sorted changes gets its fate by edge rule 1: the words FATE and OWNER of its row. An owner may be sorted later than its dependent.
pub fn plan_edge_fates(rows: &mut [u32], n: usize, table: &[u32])
    requires { (14 * n ≤ length rows.old) × (n ≤ 256) }
    ensures { rows.new ≡ rows_words (edge_rows table.now n rows.old) ++ drop (14 * n) rows.old }
{
    // Words, index + 1: the model's lists hold numbers, into which options would be turned in each clause.
    let mut all = [0u32; 256];
    let regions = &mut all[..n];
    find_regions(rows, table, regions);
    state_fates(rows, table, regions);
}
