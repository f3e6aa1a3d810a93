// From a batch to what its run leaves: refusals 17 and 18, lines 1 to 7, planning, and the steps.
// An index of what is read, the equality of two numbers and room in a lent slice stand as clauses: a value around each would be no plainer than its bound.
// `LaidOut` and `Planning` stand in clauses, since they name the definition's trees and what is planned, which are data: as a field each would be truncated, and each
// proof that reads it would have to show that its own goal has one proof at most.
#![tactic(auto)]

ghost use Rattle.std.specs.Prelude.{◌≡◌, ◌≤◌, length, map};
ghost use Rattle.definition.specs.Basics.{gives};
ghost use Rattle.definition.specs.Answers.{with_choices};
ghost use Rattle.refusals.specs.Numbers.{answered};
ghost use Rattle.choices.specs.Meant.{meant};
ghost use Rattle.promises.specs.Lent.{held, Same};
ghost use Rattle.promises.specs.Slices.{needed, lengths};
ghost use Rattle.plan_edit.specs.Answers.{Planning};
ghost use Rattle.edit_perform.specs.Beginning.{LaidOut};
ghost use Rattle.edit_perform.specs.AtEnd.{Performs, PerformsWith};

use choices::Choices;
use plan_edit::{Counts, plan};
pub use plan_edit::{Accepted, Unplanned};
use promises::Work;
use read_batch::accept;
use read_element_table::Elements;
use read_layout::Batch;
use refusals::Refusal;
use run_annotations::NOTE_WORDS;
use run_execute::{Task, execute};

// What a run leaves: where the batch's text starts, how many elements it has, how many changes are recorded (withdrawn ones among them), the rows, notes and changed
// elements that are held, and two numbers of the result.
#[derive(Clone, Copy)]
pub struct Ended {
    pub text: usize,
    pub elements: usize,
    pub recorded: usize,
    pub rows: usize,
    pub notes: usize,
    pub changed: usize,
    pub discarded: usize,
    pub climbs: usize,
}

// A plan in words: the change rows, the places in running order, the notes where they settle.
#[derive(Clone, Copy)]
struct Plan<'a> {
    counts: Counts,
    changes: &'a [u32],
    running: &'a [u32],
    first: &'a [u32],
}

// The steps of the plan, over marks for just the batch's elements. Over 40 lines by its clauses, as the next one is: nine lines name the parameters, of which six are
// lent to be written; the body has fewer.
// `choices` names the definition's in the clauses: a ghost value in its place could be picked from the call's other arguments alone, which do not tell it.
fn run_plan(
    choices: Choices,
    accepted: &Accepted,
    plan: &Plan,
    notes: &mut [u32],
    incoming: &mut [u32],
    changed: &mut [u32],
    marks: &mut [u32],
    rows: &mut [u32],
    prepared: &mut [u32],
) -> Result<Ended, Unplanned>
    requires laid_out { LaidOut accepted.now.batch.bytes.now accepted.now.batch.layout accepted.now.elements.table.now accepted.now.elements.source.now }
    requires planning { Planning (meant choices) accepted.now.batch.bytes.now accepted.now.batch.layout accepted.now.elements.table.now accepted.now.elements.source.now plan.now.changes.now plan.now.running.now plan.now.first.now (Ok plan.now.counts) }
    requires in_bounds { (6147 ≤ length accepted.now.elements.source.now) × (256 ≤ length plan.now.running.now) × (768 ≤ length plan.now.first.now) }
    requires marks_len { (length marks.old ≡ accepted.now.elements.count) × (3072 ≤ length notes.old) × (3072 ≤ length incoming.old) × (1024 ≤ length changed.old) × (12291 ≤ length rows.old) × (12288 ≤ length prepared.old) }
    ensures { Performs (meant choices) accepted.now.batch.bytes.now accepted.now.elements.table.now accepted.now.elements.source.now plan.now.changes.now rows.new notes.new changed.new marks.new result }
{
    // As many as a call may list.
    let mut sizes = [0u32; 41];
    let l = accepted.batch.layout;
    let s = l.sizes;
    let settled = NOTE_WORDS * s.notes;
    let listed = l.list;
    let end = listed + 4 * s.listed;
    let counts = plan.counts;
    let runs = counts.runs;
    let task = Task {
        table: accepted.elements.table,
        source: accepted.elements.source,
        first: &plan.first[..settled],
        listed: &accepted.batch.bytes[listed..end],
        changes: plan.changes,
    };
    let t = execute(
        rows,
        marks,
        notes,
        changed,
        prepared,
        &mut sizes,
        incoming,
        &task,
        &plan.running[..runs],
        s.text,
    )?;
    Ok(Ended {
        text: l.text,
        elements: s.elements,
        recorded: counts.recorded,
        rows: t.rows,
        notes: t.notes,
        changed: t.changed,
        discarded: counts.discarded,
        climbs: counts.climbs,
    })
}

// The plan of an accepted batch, and its steps. Before the first step the rows, the prepared rows, the changed rows and the marks serve planning. Slices, and no
// `Work`: the accepted batch reads two of the work slices, so that the whole of them cannot be lent beside it.
pub fn plan_and_run(
    choices: Choices,
    accepted: &Accepted,
    changes: &mut [u32],
    notes: &mut [u32],
    incoming: &mut [u32],
    changed: &mut [u32],
    marks: &mut [u32],
    rows: &mut [u32],
    prepared: &mut [u32],
) -> Result<Ended, Unplanned>
    requires laid_out { LaidOut accepted.now.batch.bytes.now accepted.now.batch.layout accepted.now.elements.table.now accepted.now.elements.source.now }
    requires in_bounds { (6147 ≤ length accepted.now.elements.source.now) × (3840 ≤ length changes.old) }
    requires in_bounds_2 { (2048 ≤ length marks.old) × (3072 ≤ length notes.old) × (3072 ≤ length incoming.old) × (1024 ≤ length changed.old) × (12291 ≤ length rows.old) × (12288 ≤ length prepared.old) }
    ensures { Performs (meant choices) accepted.now.batch.bytes.now accepted.now.elements.table.now accepted.now.elements.source.now changes.new rows.new notes.new changed.new marks.new result }
{
    let mut running = [0u32; 256];
    let mut first = [0u32; 768];
    let counts = plan(
        choices,
        accepted,
        rows,
        prepared,
        changes,
        changed,
        &mut running,
        marks,
        &mut first,
    )?;
    let planned = Plan {
        counts,
        changes,
        running: &running,
        first: &first,
    };
    run_plan(
        choices,
        accepted,
        &planned,
        notes,
        incoming,
        changed,
        &mut marks[..accepted.elements.count],
        rows,
        prepared,
    )
}

// 17 or 18 where there is no such choice, 1 where a work slice is too short.
pub fn refused_first(choices: Choices, work: &Work) -> Result<(), Refusal>
    ensures { answered result ≡ with_choices (meant choices) (lengths needed (held work.now)) (gives tt) }
{
    choices::judge(choices)?;
    if promises::too_short(work) {
        return Err(Refusal::ShortWork);
    }
    Ok(())
}

// From a batch to what its run leaves, or the first refusal out of 17, 18, 1 to 12 and 16.
pub fn perform(choices: Choices, b: &[u8], work: &mut Work) -> Result<Ended, Unplanned>
    ensures same { Same work.old work.new }
    ensures lengths { map length (held work.new) ≡ map length (held work.old) }
    ensures performs { PerformsWith (meant choices) (held work.old) b.now work.new.table.now work.new.source.now work.new.changes.now work.new.rows.now work.new.notes.now work.new.changed.now work.new.marks.now result }
{
    refused_first(choices, work)?;
    let table = &mut *work.table;
    let source = &mut *work.source;
    let layout = accept(b, table, source)?;
    let accepted = Accepted {
        batch: Batch { bytes: b, layout },
        elements: Elements {
            count: layout.sizes.elements,
            table,
            source,
        },
    };
    plan_and_run(
        choices,
        &accepted,
        work.changes,
        work.notes,
        work.incoming,
        work.changed,
        work.marks,
        work.rows,
        work.prepared,
    )
}
