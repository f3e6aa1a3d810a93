// Whether any two splices of a list are apart: they have two numbers, neither's parent is below what the other deletes, and their runs do not overlap.
// An index of what is read stands as a clause, and so does that each parent is a row, which is an index for each splice: a value around each would be no plainer
// than its bound.
#![tactic(auto)]

ghost use Rattle.std.specs.Prelude.{◌+◌, ◌*◌, ◌<◌, get_or};
ghost use Rattle.splices_apart.specs.Promises.{EntersAt, Overlaps, ApartAt, RowsTo, ApartFrom, ApartAll};

use rows_syntax_node::{Rows, child_row};
use splices_model::Splices;

// Whether row `x` of the old tree is one of those that splice `i` deletes.
#[tactic(auto, unfolding(splices_model::specs::Verdict::enters_cut, splices_model::specs::Cuts::cut_at))]
fn enters(rows: &Rows, splices: &Splices, i: usize, x: usize) -> bool
    requires { (i < splices.now.count) × (get_or splices.now.words.now (6 * i + 1) 0 < rows.now.count) }
    ensures { EntersAt rows.now.words.now rows.now.count splices.now.words.now i x result }
{
    let splice = splices.get(i);
    // The start first: most rows lie before it, and its end costs a walk of its own.
    child_row(rows, splice.parent, splice.from) <= x
        && x < child_row(rows, splice.parent, splice.to)
}

// Whether the runs of splices `i` and `j` are in one parent and overlap.
#[tactic(auto, unfolding(splices_model::specs::Verdict::overlap_cut, splices_model::specs::Cuts::cut_at))]
fn overlap(splices: &Splices, i: usize, j: usize) -> bool
    requires { (i < splices.now.count) × (j < splices.now.count) }
    ensures { Overlaps splices.now.words.now i j result }
{
    let s = splices.get(i);
    let t = splices.get(j);
    s.parent == t.parent && s.from < t.to && t.from < s.to
}

// Whether splices `i` and `j` are apart.
#[tactic(auto, unfolding(splices_model::specs::Verdict::apart_cut, splices_model::specs::Cuts::cut_at))]
fn apart(rows: &Rows, splices: &Splices, i: usize, j: usize) -> bool
    requires i_in_bounds { (i < splices.now.count) × (get_or splices.now.words.now (6 * i + 1) 0 < rows.now.count) }
    requires j_in_bounds { (j < splices.now.count) × (get_or splices.now.words.now (6 * j + 1) 0 < rows.now.count) }
    ensures { ApartAt rows.now.words.now rows.now.count splices.now.words.now i j result }
{
    let s = splices.get(i);
    let t = splices.get(j);
    s.number != t.number
        && !enters(rows, splices, i, t.parent)
        && !enters(rows, splices, j, s.parent)
        && !overlap(splices, i, j)
}

// Whether splice `i` is apart from each before it.
fn apart_from(rows: &Rows, splices: &Splices, i: usize) -> bool
    requires { (i < splices.now.count) × RowsTo rows.now.count splices.now.words.now (i + 1) }
    ensures { ApartFrom rows.now.words.now rows.now.count splices.now.words.now i i result }
{
    (0..i).all(|j| apart(rows, splices, i, j))
}

// Whether any two are apart. The prepared rows do not matter, so it takes the splices without them.
pub fn all_apart(rows: &Rows, splices: &Splices) -> bool
    requires { RowsTo rows.now.count splices.now.words.now splices.now.count }
    ensures { ApartAll rows.now.words.now rows.now.count splices.now.words.now splices.now.count result }
{
    (0..splices.count).all(|k| apart_from(rows, splices, k))
}
