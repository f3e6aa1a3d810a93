// Rewriting dependents: the targets of a change inside a replaced node move into the replacement, and its row is made anew. Rows come with a place or a count:
// record_changes says why.
// Bounds of one number, an index of what is read and room in a lent slice stand as clauses: a value around each would be no plainer than its bound.
// What rows state (`Dependent`, `NewEnds`, `Fated`, `Rewritable`) stands in clauses: each speaks of one row, two or the first `c` of a slice and of the listed elements,
// so that a value would hold both slices; the first three would be made anew for each row, and `Rewritable` once, for a single function.
// Mapping, list and rows are no one value: each clause would name all three through it, and the rows are read by place (record_changes).
#![tactic(auto)]

ghost use Rattle.std.specs.Prelude.{◌≡◌, cond, ◌+◌, ◌*◌, ◌≤◌, ◌<◌, length, get_or, eqb};
ghost use Rattle.words.specs.List.{words_of};
ghost use Rattle.read_element_table.specs.Held.{view_of};
ghost use Rattle.plan_mapping.specs.Mapped.{mapped_by};
ghost use Rattle.record_changes.specs.ChangeRowLaws.{row_at};
ghost use Rattle.record_rewritten.specs.Stated.{change_of, Dependent, NewEnds, Fated, Rewritable};
ghost use Rattle.plan_rewrite.specs.Rewritten.{rewrite_under, rewrite_at};
ghost use Rattle.plan_rewrite.specs.Answers.{MovedEnds, OwnedEnds, RowRewritten, judged_row, RowsRewritten};

use plan_upmap::Mapping;
use read_element_table::Elements;
use record_changes::{Fate, Operation, field};
use refusals::Refusal;
use words::WordList;

// Where the ends of a change go, and how many climb steps were taken.
#[derive(Clone, Copy)]
pub struct Ends {
    pub target: usize,
    pub end: usize,
    pub steps: usize,
}

// Where the target and, of a run, the end go when `input` is replaced by `output`; the start of a run before its end. `input` and `output` stay two numbers: only
// the bound of each is known.
fn upmap_ends(
    mapping: &Mapping,
    input: usize,
    output: usize,
    operation: usize,
    target: usize,
    end: usize,
) -> Result<Ends, Refusal>
    requires { (input < mapping.now.elements.count) × (output < mapping.now.elements.count) × (target < mapping.now.elements.count) × (end < mapping.now.elements.count) }
    ensures { MovedEnds mapping.now.elements.count mapping.now.elements.table.now mapping.now.elements.source.now mapping.now.map.now input output operation target end result }
{
    let start = plan_upmap::upmap_child(mapping, target, input, output)?;
    if operation != Operation::ReplaceAll as usize {
        return Ok(Ends {
            target: start.element,
            end: start.element,
            steps: start.steps,
        });
    }
    let last = plan_upmap::upmap_child(mapping, end, input, output)?;
    Ok(Ends {
        target: start.element,
        end: last.element,
        steps: start.steps + last.steps,
    })
}

// By what a call is judged beside its target: a call 2 by its listed element, a run by its end `y`.
fn judged_by(listed: &WordList, operation: usize, list: usize, y: usize) -> usize
    ensures { result ≡ cond (eqb operation 2) (get_or (words_of listed.now) list 0) y }
{
    if operation == Operation::Replace as usize {
        return listed.get(list);
    }
    y
}

// Where the ends of the change at place `i` go, whose owner is the call 2 at place `k`: by the owner's own target and replacement.
fn upmap_dependent(
    mapping: &Mapping,
    listed: &WordList,
    rows: &[u32],
    i: usize,
    k: usize,
) -> Result<Ends, Refusal>
    requires places { (i < 256) × (k < 256) }
    requires dependent { Dependent mapping.now.elements.count (words_of listed.now) (row_at rows.now k) (row_at rows.now i) }
    ensures { OwnedEnds mapping.now.elements.count mapping.now.elements.table.now mapping.now.elements.source.now mapping.now.map.now (words_of listed.now) (row_at rows.now k) (row_at rows.now i) result }
{
    let input = field(rows, k, record_changes::TARGET);
    let output = listed.get(field(rows, k, record_changes::LIST));
    let operation = field(rows, i, record_changes::OPERATION);
    let target = field(rows, i, record_changes::TARGET);
    let end = field(rows, i, record_changes::END);
    upmap_ends(mapping, input, output, operation, target, end)
}

// The row at place `i` is written with these ends, if line 6 takes the rewritten call: after how many climb steps. The Rust does not ask: it panics where it needs such
// a target's parent or range, or goes on (docs/DIFFERENCES.md, 2).
fn write_judged(
    elements: &Elements,
    listed: &WordList,
    rows: &[u32],
    i: usize,
    ends: Ends,
    out: &mut [u32],
) -> Result<usize, Refusal>
    requires places { (i < 256) × (14 * i + 14 ≤ length out.old) × (ends.steps ≤ 2 * elements.now.count) }
    requires new_ends { NewEnds elements.now.count (words_of listed.now) (row_at rows.now i) ends.target ends.end }
    ensures { RowRewritten (judged_row (view_of elements.now) (words_of listed.now) (row_at rows.now i) (ends.target, ends.end, ends.steps)) i out.old out.new result }
{
    let operation = field(rows, i, record_changes::OPERATION);
    let list = field(rows, i, record_changes::LIST);
    let z = judged_by(listed, operation, list, ends.end);
    if read_calls::call_fits(elements, operation, ends.target, z) {
        record_rewritten::write_row(elements, rows, i, ends.target, ends.end, z, out);
        return Ok(ends.steps);
    }
    Err(Refusal::Unmapped)
}

// Rust: EditPlan::rewrite_dependent_target. The change at place `i`, which depends on the one at place `k`, is written with the ends that it has in the
// replacement: after how many climb steps.
fn rewrite_dependent_target(
    mapping: &Mapping,
    listed: &WordList,
    rows: &[u32],
    i: usize,
    k: usize,
    out: &mut [u32],
) -> Result<usize, Refusal>
    requires places { (i < 256) × (k < 256) × (14 * i + 14 ≤ length out.old) }
    requires dependent { Dependent mapping.now.elements.count (words_of listed.now) (row_at rows.now k) (row_at rows.now i) }
    ensures { RowRewritten (rewrite_under (view_of mapping.now.elements) (mapped_by mapping.now.map.now) (words_of listed.now) (change_of (words_of listed.now) (row_at rows.now k)) (row_at rows.now i)) i out.old out.new result }
{
    let ends = upmap_dependent(mapping, listed, rows, i, k)?;
    write_judged(&mapping.elements, listed, rows, i, ends, out)
}

// The row at place `i` is written anew if it is a dependent, and as it is if not: after how many climb steps.
fn rewrite_row(
    mapping: &Mapping,
    listed: &WordList,
    rows: &[u32],
    i: usize,
    out: &mut [u32],
) -> Result<usize, Refusal>
    requires places { 14 * i + 14 ≤ length out.old }
    requires fated { Fated mapping.now.elements.count (words_of listed.now) rows.now i }
    ensures { RowRewritten (rewrite_at (view_of mapping.now.elements) (mapped_by mapping.now.map.now) (words_of listed.now) rows.now i) i out.old out.new result }
{
    if field(rows, i, record_changes::FATE) == Fate::Dependent as usize {
        let k = field(rows, i, record_changes::OWNER);
        return rewrite_dependent_target(mapping, listed, rows, i, k, out);
    }
    plan_sort::copy_row(rows, i, out, i);
    Ok(0)
}

// Rust: EditPlan::build, the loop over dependents. The `c` sorted rows with their fates are written to `out`, dependents with their targets in the replacement:
// from the last to the first, so from the innermost outward, each by its owner's own target and replacement: in a chain A, B, C the change C goes into B's
// replacement before B itself is mapped into A's. `rows` keeps the owners as they were, so that this holds in any order. A loop that adds: each turn writes a row too,
// and may be refused.
pub fn rewrite_dependents(
    mapping: &Mapping,
    listed: &WordList,
    rows: &[u32],
    c: usize,
    out: &mut [u32],
) -> Result<usize, Refusal>
    requires places { 14 * c ≤ length out.old }
    requires rewritable { Rewritable mapping.now.elements.count (words_of listed.now) rows.now c }
    ensures { RowsRewritten mapping.now.elements.count mapping.now.elements.table.now mapping.now.elements.source.now mapping.now.map.now (words_of listed.now) rows.now c out.new result }
{
    let mut steps: usize = 0;
    for i in (0..c).rev() {
        steps += rewrite_row(mapping, listed, rows, i, out)?;
    }
    Ok(steps)
}
