// The row of a dependent with the ends that it has in the replacement: written as recording writes rows, with fate, owner and rule number kept. Rows come with a
// place: record_changes says why.
// Bounds of one number, an index of what is read and room in a lent slice stand as clauses: a value around each would be no plainer than its bound.
#![tactic(auto)]

ghost use Rattle.std.specs.Prelude.{[], ◌∷◌, ◌≡◌, ℕ, ◌+◌, ◌*◌, ◌≤◌, ◌<◌, length};
ghost use Rattle.std.proofs.Math.Seq.{paste};
ghost use Rattle.read_element_table.specs.Held.{view_of};
ghost use Rattle.record_changes.specs.ChangeRow.{row_words};
ghost use Rattle.record_changes.specs.ChangeRowLaws.{row_at};
ghost use Rattle.record_rewritten.specs.Stated.{ChangedEnds, row_anew};

use read_element_table::Elements;
use record_changes::{Change, Listed};

// The change at place `i` of `rows` with the target `x` and the end `y`.
fn change_anew(rows: &[u32], i: usize, x: usize, y: usize) -> Change
    requires { i < 256 }
    ensures { (n : ℕ) → n ≤ 2048 → x < n → y < n → ChangedEnds n (row_at rows.now i) x y result }
{
    let operation = record_changes::field(rows, i, record_changes::OPERATION);
    let listed = Listed {
        at: record_changes::field(rows, i, record_changes::LIST),
        count: record_changes::field(rows, i, record_changes::COUNT),
    };
    record_changes::change_by(operation, x, y, listed)
}

// Fate, owner and rule number of the row at place `i` of `rows`, written at the same place of `out`. By `field`, which asks nothing of
// the rows' length: a part of the row would ask for its words.
#[tactic(auto, using(crate::proofs::Writing::fate_copied))]
fn copy_fate(rows: &[u32], i: usize, out: &mut [u32])
    requires { (i < 256) × (14 * i + 14 ≤ length out.old) }
    ensures { out.new ≡ paste out.old (14 * i + 11) ((row_at rows.now i).fate ∷ (row_at rows.now i).owner ∷ (row_at rows.now i).rule ∷ []) 3 }
{
    let fate = record_changes::field(rows, i, record_changes::FATE);
    let owner = record_changes::field(rows, i, record_changes::OWNER);
    let rule = record_changes::field(rows, i, record_changes::RULE);
    words::copy_in(
        out,
        record_changes::WORDS * i + record_changes::FATE,
        &[fate as u32, owner as u32, rule as u32],
    );
}

// The row at place `i` of `rows` with the target `x`, the end `y` and the first listed element `z`, written at the same place of `out`. Tree, range and
// depth are those of the new target: the running order goes by them.
pub fn write_row(
    elements: &Elements,
    rows: &[u32],
    i: usize,
    x: usize,
    y: usize,
    z: usize,
    out: &mut [u32],
)
    requires { (x < elements.now.count) × (y < elements.now.count) × (z < elements.now.count) × (i < 256) × (14 * i + 14 ≤ length out.old) }
    ensures { out.new ≡ paste out.old (14 * i) (row_words (row_anew (view_of elements.now) (row_at rows.now i) x y z)) 14 }
{
    let change = change_anew(rows, i, x, y);
    let spot = record_changes::spot_of(change, z, elements);
    record_changes::write_row(out, i, record_changes::numbers_of(change), spot, 0);
    copy_fate(rows, i, out);
}
