// One splice of a list on the rows and marks of one old tree. Six words a splice: number, row of its parent in the old tree, from, to, where its prepared rows
// start, how many they are. The mark of an old element is the row where it stands now.
// Bounds of one number, the order of two numbers, an index of what is read and room in a lent slice stand as clauses: a value around each would be no plainer
// than its bound. That marks are rows stands in clauses, since they are written; that the words of splices are in bounds does, since it is of a list and an old tree
// together, and the check of a list, which finds it out, reads the same `SpliceList`.
// Rows and marks stay two slices, here and in splices_list: the gap is read of both, then both are written; each function would begin by lending the fields of one value
// again.
#![tactic(auto)]

ghost use Rattle.std.specs.Prelude.{◌≡◌, true, ℕ, ◌+◌, ◌*◌, ◌^◌, ◌≤◌, ◌<◌, length, get_or};
ghost use Rattle.orders.specs.Lists.{All};
ghost use Rattle.rows_syntax_node.specs.Rising.{Rising};
ghost use Rattle.splices_step.specs.Promises.{left_run, left_at, TreesOf, Deletes, Shifted, Started, GapAt, takes_by, Stepped};
ghost use Rattle.splices_model.specs.Bounds.{BoundedTo};
ghost use Rattle.splices_model.specs.Reading.{Stocked};

use rows_syntax_node::{MEASURE, ROW_WORDS, Rows, child_row, rows_after, trees_in};
use run_splice::splice;
use splices_model::{Splice, SpliceList, Splices};
use words::{NODE_KIND, word};

// ── To the left ──

// Whether the first of two runs in one parent is left of the second.
#[tactic(auto, unfolding(crate::specs::Promises::left_run))]
fn left_run(first: Splice, second: Splice) -> bool
    ensures { result ≡ left_run first.number first.from first.to second.number second.from second.to }
{
    first.to <= second.from && (first.from < second.to || second.number < first.number)
}

// Whether splice `j` is in the parent of splice `i` and left of it.
#[tactic(auto, unfolding(crate::specs::Promises::left_at))]
fn left_of(splices: &Splices, i: usize, j: usize) -> bool
    requires { (i < splices.now.count) × (j < splices.now.count) }
    ensures { result ≡ left_at splices.now.words.now i j }
{
    let s = splices.get(i);
    let t = splices.get(j);
    t.parent == s.parent && left_run(t, s)
}

// The number of trees that splice `j` brings.
#[tactic(auto, using(crate::proofs::Turns::part_trees))]
fn trees_of(list: &SpliceList, j: usize) -> usize
    requires { (j < list.now.splices.count) × Stocked list.now.splices.words.now list.now.prepared.now j }
    ensures { TreesOf list.now.splices.words.now list.now.prepared.now j result }
{
    trees_in(list.part(j))
}

// The number of children that splice `j` deletes.
fn deleted(splices: &Splices, j: usize) -> usize
    requires { (j < splices.now.count) × (get_or splices.now.words.now (6 * j + 2) 0 ≤ get_or splices.now.words.now (6 * j + 3) 0) }
    ensures { Deletes splices.now.words.now j result }
{
    let splice = splices.get(j);
    splice.to - splice.from
}

// What splices insert and delete.
#[derive(Clone, Copy)]
pub struct Moves {
    pub gained: usize,
    pub lost: usize,
}

// What the first `i` splices insert and delete to the left of splice `i`, in its parent. One loop for both: as two sums it would ask of each splice twice where it is.
fn moves_left(list: &SpliceList, i: usize) -> Moves
    requires { (e : ℕ) × (i < list.now.splices.count) × BoundedTo e list.now.splices.words.now list.now.prepared.now i }
    ensures { Shifted list.now.splices.words.now list.now.prepared.now i i result.gained result.lost }
{
    let mut gained = 0;
    let mut lost = 0;
    for j in 0..i {
        if left_of(&list.splices, i, j) {
            gained += trees_of(list, j);
            lost += deleted(&list.splices, j);
        }
    }
    Moves { gained, lost }
}

// The present start of the run of splice `i`.
#[tactic(auto, using(crate::proofs::Turns::started))]
fn start_now(list: &SpliceList, i: usize) -> usize
    requires { (e : ℕ) × (e < 2 ^ 16) × (i < list.now.splices.count) × BoundedTo e list.now.splices.words.now list.now.prepared.now i }
    ensures { Started list.now.splices.words.now list.now.prepared.now i result }
{
    let moves = moves_left(list, i);
    let splice = list.splices.get(i);
    (splice.from + moves.gained).saturating_sub(moves.lost)
}

// ── One splice ──

// The rows `from` up to `to` below the row `parent`: `lost` trees, which give way to `gain` others. Not the run's `Gap` with a field more: that stands
// above the element table and the records of changes, which a list of splices knows nothing of.
#[derive(Clone, Copy)]
pub struct Gap {
    pub parent: usize,
    pub from: usize,
    pub to: usize,
    pub lost: usize,
    pub gain: usize,
}

// Where splice `i` goes, those before it being done. Not the run's `find_gap`, which goes by an operation and the element table.
#[tactic(auto, using(crate::proofs::Turns::gap_told))]
fn gap_now(rows: &Rows, marks: &[u32], list: &SpliceList, i: usize) -> Gap
    requires marks_below { (length marks.now < 2 ^ 16) × All (λ m. m < rows.now.count) marks.now }
    requires i_in_bounds { (i < list.now.splices.count) × BoundedTo (length marks.now) list.now.splices.words.now list.now.prepared.now i }
    ensures { GapAt rows.now.words.now rows.now.count marks.now list.now.splices.words.now list.now.prepared.now i result }
{
    let parent = word(marks, list.splices.get(i).parent);
    let start = start_now(list, i);
    let lost = deleted(&list.splices, i);
    let from = child_row(rows, parent, start);
    let to = rows_after(rows, from, lost);
    let gain = trees_of(list, i);
    Gap {
        parent,
        from,
        to,
        lost,
        gain,
    }
}

// Whether the row `parent` is a node's, by its kind word and the number that words has for it, which can lose and gain so many children.
#[tactic(auto, unfolding(crate::specs::Promises::takes_by))]
fn takes(rows: &Rows, parent: usize, lost: usize, gain: usize) -> bool
    requires { (parent < rows.now.count) × (gain < 2 ^ 16) }
    ensures { result ≡ takes_by rows.now.words.now parent lost gain }
{
    let m = word(rows.words, ROW_WORDS * parent + MEASURE);
    NODE_KIND <= word(rows.words, ROW_WORDS * parent) && lost <= m && m + gain < 0x1_0000_0000
}

// Splice `i` of the list is done where it goes. No mark before the parent's moves, which the list tells by its row in the old tree. The new number of rows. Here, below and in `splices_list` `n` stands beside the rows, which are lent room that grows
// in place.
fn splice_at(
    rows: &mut [u32],
    n: usize,
    marks: &mut [u32],
    list: &SpliceList,
    i: usize,
    gap: Gap,
) -> usize
    requires i_in_bounds { (3 * n + 3 * get_or list.now.splices.words.now (6 * i + 5) 0 ≤ length rows.old) × (n < 2 ^ 16) × All (λ m. m < n) marks.old }
    requires risen { Rising marks.old }
    requires stocked { (i < list.now.splices.count) × Stocked list.now.splices.words.now list.now.prepared.now i }
    requires gap_at { GapAt rows.old n marks.old list.now.splices.words.now list.now.prepared.now i gap × (takes_by rows.old gap.parent gap.lost gap.gain ≡ true) }
    ensures { Stepped rows.old n marks.old list.now.splices.words.now list.now.prepared.now i rows.new marks.new result }
{
    splice(
        rows,
        n,
        marks,
        list.splices.get(i).parent,
        gap.parent,
        gap.from,
        gap.to,
        gap.lost,
        list.part(i),
        gap.gain,
    )
}

// Splice `i` of the list, those before it being done: its run gives way to its prepared rows, and every mark moves. The new number of rows.
pub fn splice_once(
    rows: &mut [u32],
    n: usize,
    marks: &mut [u32],
    list: &SpliceList,
    i: usize,
) -> usize
    requires room { (3 * n + 3 * get_or list.now.splices.words.now (6 * i + 5) 0 ≤ length rows.old) × (n < 2 ^ 16) }
    requires risen { Rising marks.old }
    requires marks_below { (length marks.old < 2 ^ 16) × All (λ m. m < n) marks.old }
    requires i_in_bounds { (i < list.now.splices.count) × BoundedTo (length marks.old) list.now.splices.words.now list.now.prepared.now i }
    ensures { Stepped rows.old n marks.old list.now.splices.words.now list.now.prepared.now i rows.new marks.new result }
{
    let now = Rows {
        count: n,
        words: rows,
    };
    let gap = gap_now(&now, marks, list, i);
    if takes(&now, gap.parent, gap.lost, gap.gain) {
        return splice_at(rows, n, marks, list, i, gap);
    }
    n
}
