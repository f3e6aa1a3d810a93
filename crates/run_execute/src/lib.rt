// The run: from the batch's own trees, the performed changes step by step.
// The slices that are lent to be written stay apart, as run_tree_state says.
// Bounds of one number, an index of what is read and room in a lent slice stand as clauses: a value around each would be no plainer than its bound.
// What is held and what a `Task` is asked of stand in clauses, as the task says.
#![tactic(auto)]

ghost use Rattle.std.specs.Prelude.{◌+◌, ◌*◌, ◌≤◌, ◌<◌, length};
ghost use Rattle.orders.specs.Lists.{All};
ghost use Rattle.read_element_table.specs.View.{view};
ghost use Rattle.record_changes.specs.ChangeRowLaws.{row_at};
ghost use Rattle.run_step.specs.Standing.{Begun, Lent, Standing};
ghost use Rattle.run_step.specs.Stepping.{Performs};
ghost use Rattle.run_prepare.specs.Parts.{words_in};
ghost use Rattle.run_execute.specs.Running.{lists_all, RanSteps, TextLength, Began, Ran};

use refusals::Refusal;
use rows_syntax_node::{ROW_WORDS, number_from};
use run_annotations::NOTE_WORDS;
pub use run_step::Task;
use run_step::step;
use run_tree_state::TreeState;
use words::copy_in;

// ── Before the first step ──

// Rust: TreeState::new, of all trees at once. The batch's own rows, each element at its row, the notes as first moved, and nothing changed. How long the text is, `bytes`,
// the batch states: no walk over the rows adds it up.
fn begin(
    rows: &mut [u32],
    marks: &mut [u32],
    notes: &mut [u32],
    source: &[u32],
    first: &[u32],
    bytes: usize,
) -> TreeState
    requires marks_len_bound { (length marks.old ≤ 2048) × (3 * length marks.old + 3 ≤ length source.now) × (3 * length marks.old + 3 ≤ length rows.old) }
    requires first_in_bounds { length first.now ≤ length notes.old }
    requires text_length { TextLength (length marks.old) source.now bytes }
    ensures { Began (length marks.old) source.now first.now rows.new marks.new notes.new result }
{
    let n = marks.len() + 1;
    let end = ROW_WORDS * n;
    copy_in(rows, 0, &source[0..end]);
    number_from(marks, 1);
    copy_in(notes, 0, first);
    TreeState {
        root: 1,
        rows: n,
        bytes,
        notes: first.len() / NOTE_WORDS,
        changed: 0,
    }
}

// ── The run ──

// The changes at the places in `running`, step by step: the first refusal, or what is held at the end.
fn run_steps(
    rows: &mut [u32],
    marks: &mut [u32],
    notes: &mut [u32],
    changed: &mut [u32],
    prepared: &mut [u32],
    sizes: &mut [u32],
    incoming: &mut [u32],
    task: &Task,
    running: &[u32],
    start: TreeState,
) -> Result<TreeState, Refusal>
    requires standing { Standing (length marks.old) task.now.table.now task.now.source.now task.now.first.now start rows.old marks.old notes.old changed.old }
    requires in_bounds { Lent rows.old notes.old prepared.old sizes.old incoming.old }
    requires listed_low { All (λ e. e < length marks.old) (words_in task.now.listed.now) }
    requires all { All (λ k. Performs (length marks.old) (view (length marks.old) task.now.table.now task.now.source.now) (words_in task.now.listed.now) (row_at task.now.changes.now k)) running.now }
    requires running_in_bounds { start.changed + lists_all (view (length marks.old) task.now.table.now task.now.source.now) (words_in task.now.listed.now) task.now.changes.now running.now ≤ length changed.old }
    ensures { RanSteps task.now.table.now task.now.source.now task.now.first.now (words_in task.now.listed.now) task.now.changes.now running.now start rows.old marks.old notes.old changed.old rows.new marks.new notes.new changed.new result }
{
    let mut s = start;
    for k in running {
        s = step(
            rows,
            marks,
            notes,
            changed,
            prepared,
            sizes,
            incoming,
            task,
            *k as usize,
            s,
        )?;
    }
    Ok(s)
}

// Rust: TreeStore::execute, which analyses nothing further. The performed changes, which are at the places in `running`, from the batch's own
// trees, whose text is `bytes` long: 11 or 12 as met, or what is held at the end.
pub fn execute(
    rows: &mut [u32],
    marks: &mut [u32],
    notes: &mut [u32],
    changed: &mut [u32],
    prepared: &mut [u32],
    sizes: &mut [u32],
    incoming: &mut [u32],
    task: &Task,
    running: &[u32],
    bytes: usize,
) -> Result<TreeState, Refusal>
    requires begun { Begun (length marks.old) task.now.table.now task.now.source.now task.now.first.now }
    requires text_length { TextLength (length marks.old) task.now.source.now bytes }
    requires in_bounds { Lent rows.old notes.old prepared.old sizes.old incoming.old }
    requires listed_low { All (λ e. e < length marks.old) (words_in task.now.listed.now) }
    requires all { All (λ k. Performs (length marks.old) (view (length marks.old) task.now.table.now task.now.source.now) (words_in task.now.listed.now) (row_at task.now.changes.now k)) running.now }
    requires running_in_bounds { lists_all (view (length marks.old) task.now.table.now task.now.source.now) (words_in task.now.listed.now) task.now.changes.now running.now ≤ length changed.old }
    ensures { Ran (length marks.old) task.now.table.now task.now.source.now task.now.first.now (words_in task.now.listed.now) task.now.changes.now running.now rows.new marks.new notes.new changed.new result }
{
    let s = begin(rows, marks, notes, task.source, task.first, bytes);
    run_steps(
        rows, marks, notes, changed, prepared, sizes, incoming, task, running, s,
    )
}
