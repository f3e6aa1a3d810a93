// The first refusal of a list of splices, six words each (number, row of its parent in the old tree, from, to, where its prepared rows start, how many they are):
// whether the slices have room for it, it fits the old tree and is apart. Nothing is written.
// Bounds of one number and an index of what is read stand as clauses: a value around each would be no plainer than its bound.
#![tactic(auto)]

ghost use Rattle.std.specs.Prelude.{◌≡◌, ◌+◌, ◌*◌, ◌^◌, ◌<◌, length, get_or, take};
ghost use Rattle.splices_model.specs.Bounds.{rows_to};
ghost use Rattle.splices_model.specs.Refusals.{refusal_in};
ghost use Rattle.splices_model.specs.Verdict.{bounded_at, has_run_at, limited, roomy};
ghost use Rattle.splices_check.specs.Promises.{Closes, FitsAt, FitsAll, OneTree, Fitted, Judged};

use rows_syntax_node::{MEASURE, ROW_WORDS, Rows, child_count, trees_in};
use splices_apart::all_apart;
use splices_model::{SPLICE_WORDS, SpliceList, SpliceRefusal, Splices};
use words::{NODE_KIND, word};

// ── It fits ──

// Whether a run spells whole trees: nothing is owed behind it. By the number of each row, as `trees_in` beside it: `child_count` reads a row of many, so that a
// chunk's row would owe a law more. A `for`: over `fold` the bound of `o` would go through `fold_over`; no plainer.
fn closes(run: &[u32]) -> bool
    requires { length run.now < 3 * 2 ^ 16 }
    ensures { Closes run.now result }
{
    let mut o: usize = 0;
    for i in 0..run.len() / ROW_WORDS {
        o = o.saturating_sub(1) + child_count(run, i);
    }
    o == 0
}

// Whether the words of splice `j` are in bounds, where the old tree has `e` rows.
#[tactic(auto, unfolding(splices_model::specs::Verdict::bounded_at))]
fn bounded(e: usize, list: &SpliceList, j: usize) -> bool
    requires { j < list.now.splices.count }
    ensures { result ≡ bounded_at e list.now.splices.words.now list.now.prepared.now j }
{
    let splice = list.splices.get(j);
    splice.parent < e
        && splice.from <= splice.to
        && splice.to <= e
        && ROW_WORDS * splice.start + ROW_WORDS * splice.rows <= list.prepared.len()
}

// Whether the parent of splice `j` is a node with so many children. The kind word of a row tells it, by the number that words has for it.
#[tactic(auto, unfolding(splices_model::specs::Verdict::has_run_at))]
fn has_run(rows: &Rows, splices: &Splices, j: usize) -> bool
    requires { (j < splices.now.count) × (get_or splices.now.words.now (6 * j + 1) 0 < rows.now.count) }
    ensures { result ≡ has_run_at rows.now.words.now splices.now.words.now j }
{
    let splice = splices.get(j);
    let at = ROW_WORDS * splice.parent;
    NODE_KIND <= word(rows.words, at) && splice.to <= word(rows.words, at + MEASURE)
}

// Whether splice `j` fits the old tree.
#[tactic(auto, unfolding(splices_model::specs::Verdict::fit_at))]
fn fits(rows: &Rows, list: &SpliceList, j: usize) -> bool
    requires { j < list.now.splices.count }
    ensures { FitsAt rows.now.words.now rows.now.count list.now.splices.words.now list.now.prepared.now j result }
{
    bounded(rows.count, list, j) && has_run(rows, &list.splices, j) && closes(list.part(j))
}

// Whether each splice does.
fn all_fit(rows: &Rows, list: &SpliceList) -> bool
    ensures { FitsAll rows.now.words.now rows.now.count list.now.splices.words.now list.now.prepared.now list.now.splices.count result }
{
    (0..list.splices.count).all(|k| fits(rows, list, k))
}

// Whether a run is one whole tree.
#[tactic(auto, unfolding(splices_model::specs::Verdict::tree_rows))]
fn one_tree(run: &[u32]) -> bool
    requires { length run.now < 3 * 2 ^ 16 }
    ensures { OneTree run.now result }
{
    closes(run) && trees_in(run) == 1
}

// Whether the rows are those of one tree.
#[tactic(auto, using(crate::proofs::Turns::from_the_first))]
fn spells_tree(rows: &Rows) -> bool
    ensures { OneTree (take (3 * rows.now.count) rows.now.words.now) result }
{
    one_tree(rows.between(0, rows.count))
}

// ── There is room ──

// The prepared rows of all splices together. What they are does not matter, so it takes the splices without them.
pub fn rows_to(splices: &Splices) -> usize
    requires { splices.now.count < 2 ^ 15 }
    ensures { (result ≡ rows_to splices.now.words.now splices.now.count) × (result < 2 ^ 48) }
{
    (0..splices.count).map(|k| splices.get(k).rows).sum()
}

// Whether the slices are within the limits, where the old tree has `e` rows and the list `c` splices.
#[tactic(auto, unfolding(splices_model::specs::Verdict::limited))]
fn within(e: usize, splices: &[u32], prepared: &[u32], c: usize) -> bool
    ensures { result ≡ limited e splices.now prepared.now c }
{
    c < 32768 && splices.len() == SPLICE_WORDS * c && e < 65536 && prepared.len() < 196608
}

// Whether there is room for `e` rows with all that come in: `long` words, and no more than 65,535 rows.
#[tactic(auto, unfolding(splices_model::specs::Verdict::roomy))]
fn room(long: usize, e: usize, splices: &Splices) -> bool
    requires { (e < 2 ^ 16) × (splices.now.count < 2 ^ 15) }
    ensures { result ≡ roomy long e splices.now.words.now splices.now.count }
{
    let sum = rows_to(splices);
    ROW_WORDS * e + ROW_WORDS * sum <= long && e + sum < 65536
}

// ── The verdict ──

// Refused if the rows are not those of one tree, then if a splice does not fit it, then if two are not apart.
#[tactic(auto, using(crate::proofs::Turns::no_tree, crate::proofs::Turns::unfit, crate::proofs::Turns::fits_rows, crate::proofs::Turns::not_apart, crate::proofs::Turns::all_fitted))]
fn fitted(rows: &Rows, list: &SpliceList) -> Result<(), SpliceRefusal>
    ensures { Fitted rows.now.words.now rows.now.count list.now.splices.words.now list.now.prepared.now list.now.splices.count (refusal_in result) }
{
    if !spells_tree(rows) {
        return Err(SpliceRefusal::NoTree);
    }
    if !all_fit(rows, list) {
        return Err(SpliceRefusal::Unfit);
    }
    if !all_apart(rows, &list.splices) {
        return Err(SpliceRefusal::NotApart);
    }
    Ok(())
}

// The first refusal: if a slice is beyond its limit, then if there is no room, then if the list does not fit a tree or is not apart. It takes slices and counts,
// since it is the test of what `Rows` and `SpliceList` hold.
#[tactic(auto, using(crate::proofs::Turns::beyond_limits, crate::proofs::Turns::roomless, crate::proofs::Turns::all_judged))]
pub fn judged(
    rows: &[u32],
    e: usize,
    splices: &[u32],
    prepared: &[u32],
    c: usize,
) -> Result<(), SpliceRefusal>
    ensures { Judged rows.now e splices.now prepared.now c (refusal_in result) }
{
    if !within(e, splices, prepared, c) {
        return Err(SpliceRefusal::OutOfLimits);
    }
    let each = Splices {
        count: c,
        words: splices,
    };
    if !room(rows.len(), e, &each) {
        return Err(SpliceRefusal::NoRoom);
    }
    let old = Rows {
        count: e,
        words: rows,
    };
    let list = SpliceList {
        splices: each,
        prepared,
    };
    fitted(&old, &list)
}
