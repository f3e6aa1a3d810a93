// From what a run leaves to what each job answers.
// An index of what is read stands as a clause: a value around each would be no plainer than its bound.
// `choices` and `batch` stand in most functions for the promise alone: what a run left is told of them. As a `ghost` value they would have to be picked from what a call is
// given, where nothing holds them (tried). Nor are they one value with `d`: what joins the three is `AtEnd`, which tells the definition's data and so would be no field.
#![tactic(auto)]

ghost use Rattle.std.specs.Prelude.{◌≡◌, ◌≤◌, ◌<◌, length};
ghost use Rattle.choices.specs.Meant.{meant};
ghost use Rattle.read_element_table.specs.Held.{view_of};
ghost use Rattle.definition.specs.Basics.{gives};
ghost use Rattle.edit_perform.specs.AtEnd.{AtEnd, Told as ElementsTold, Recounted};
ghost use Rattle.promises.specs.Promises.{found};
ghost use Rattle.promises.specs.Serving.{reached, of_place, of_share, Tells};
ghost use Rattle.share_laws.specs.Share.{share};
ghost use Rattle.promises.specs.declared.Job.TheVariants as asked;
ghost use Rattle.edit_answer.specs.AtEnd.{RowsAtEnd, ToKeep, old_node, overlap_told, unless, ToAnswer};

use choices::Choices;
use edit_perform::Ended;
use finish_arrays::Tally;
use finish_model::Left;
use plan_edit::Unplanned;
use promises::{Job, Told};
use read_element_table::Elements;
use refusals::Refusal;
use rows_syntax_node::Rows;
use run_annotations::NOTE_WORDS;
pub use share_rows::Thousandths;

// How many bytes the edit program's result buffer has.
const PROGRAM_ROOM: usize = 65536;

// The result's bytes from what the run of the batch leaves, or 13. Beside `series_answer::answer_end`: what is common is `finish`, and one function over both would need
// a crate of its own. `starts` is for where each element's text starts.
fn write_answer(
    choices: Choices,
    batch: &[u8],
    d: Ended,
    rows: &[u32],
    notes: &mut [u32],
    changed: &mut [u32],
    starts: &mut [u32],
    res: &mut [u8],
) -> Result<Told, Refusal>
    requires at_end { AtEnd (meant choices) batch.now rows.now notes.old changed.old d }
    requires in_bounds { 4096 ≤ length starts.old }
    ensures { Tells (reached (meant choices) asked.Edit batch.now (length res.old)) res.old result res.new }
{
    let from = d.text;
    let text = &batch[from..];
    let left = Left {
        rows: Rows {
            count: d.rows,
            words: rows,
        },
    };
    let tally = Tally {
        discarded: d.discarded,
        climbs: d.climbs,
    };
    let k = NOTE_WORDS * d.notes;
    let c = d.changed;
    let n = finish_result::finish(
        &left,
        &mut notes[..k],
        &mut changed[..c],
        starts,
        text,
        &tally,
        res,
    )?;
    Ok(Told::Bytes(n))
}

// Whether element `k` is a node of tree 0.
#[tactic(auto, using(crate::proofs::Ends::token_there, crate::proofs::Ends::root_there))]
fn is_old_node(elements: &Elements, k: usize) -> bool
    requires { k < elements.now.count }
    ensures { result ≡ old_node (view_of elements.now) k }
{
    read_element_table::is_node(elements.source, k)
        && read_element_table::entry(elements.table, k, read_element_table::TREE) == 0
}

// Where element `k` stands in the new tree, from the rows that the run of the batch leaves. It and `share_from` answer a `Told`, as each job does: so `answer` only chooses.
// `table` and `source` come apart: the fact of `Elements` follows from `ElementsTold`, a clause that names the batch.
fn find_from(
    choices: Choices,
    batch: &[u8],
    d: Ended,
    table: &[u32],
    source: &[u32],
    rows: &[u32],
    k: usize,
) -> Told
    requires rows_at_end { RowsAtEnd (meant choices) batch.now rows.now d }
    requires told { ElementsTold batch.now table.now source.now d.elements }
    ensures { gives result ≡ of_place (found (meant choices) batch.now k) }
{
    let n = d.elements;
    if n <= k {
        return Told::Place(None);
    }
    let elements = Elements {
        count: n,
        table,
        source,
    };
    if !is_old_node(&elements, k) {
        return Told::Place(None);
    }
    let kind = read_element_table::row_word(source, k, rows_syntax_node::KIND);
    let start = finish_find::old_start(&elements, k);
    let all = Rows {
        count: d.rows,
        words: rows,
    };
    Told::Place(finish_find::find_in_tree(&all, kind, start))
}

// The account from what the run of the batch leaves, or 13: where the edit program's buffer could not hold the result, or where this one cannot hold the account.
fn account_from(
    choices: Choices,
    batch: &[u8],
    d: Ended,
    changes: &[u32],
    rows: &[u32],
    notes: &[u32],
    changed: &[u32],
    res: &mut [u8],
) -> Result<Told, Refusal>
    requires { AtEnd (meant choices) batch.now rows.now notes.now changed.now d × Recounted (meant choices) batch.now changes.now d }
    ensures { Tells (reached (meant choices) asked.Account batch.now (length res.old)) res.old result res.new }
{
    let from = d.text;
    let text = &batch[from..];
    let left = Left {
        rows: Rows {
            count: d.rows,
            words: rows,
        },
    };
    let k = NOTE_WORDS * d.notes;
    let c = d.changed;
    let size = finish_result::result_size(&left, &notes[..k], &changed[..c], text);
    if PROGRAM_ROOM < size {
        return Err(Refusal::ShortResult);
    }
    let behind = plan_edit::WITHDRAWN;
    let end = behind + d.recorded;
    account_lines::tell_account(changes, &changes[behind..end], res)
}

// The share of text rewritten, from what the run of the batch leaves.
fn share_from(
    choices: Choices,
    batch: &[u8],
    d: Ended,
    rows: &[u32],
    notes: &[u32],
    changed: &[u32],
) -> Told
    requires { AtEnd (meant choices) batch.now rows.now notes.now changed.now d }
    ensures { gives result ≡ of_share (share (meant choices) batch.now) }
{
    let c = d.changed;
    let left = Left {
        rows: Rows {
            count: d.rows,
            words: rows,
        },
    };
    let s = share_rows::share(&left, &changed[..c]);
    Told::Of(s.quotient, s.remainder)
}

// The surviving elements of tree 0 as pairs, from what the run of the batch leaves, or 13.
fn kept_from(
    choices: Choices,
    batch: &[u8],
    d: Ended,
    source: &[u32],
    marks: &[u32],
    rows: &[u32],
    res: &mut [u8],
) -> Result<Told, Refusal>
    requires { ToKeep (meant choices) batch.now source.now marks.now rows.now d }
    ensures { Tells (reached (meant choices) asked.Kept batch.now (length res.old)) res.old result res.new }
{
    let own = Rows {
        count: d.elements + 1,
        words: source,
    };
    let all = Rows {
        count: d.rows,
        words: rows,
    };
    kept_rows::kept(&own, marks, &all, res)
}

// The two below take the job, since one public `serve` serves all jobs: what they share, the plan and the run, is done before, and only here do their ways part.

// What the job answers where the changes at the places `j` and `k` overlap: the account tells them, every other job is refused by 8.
fn overlapping(job: Job, j: usize, k: usize, res: &mut [u8]) -> Result<Told, Refusal>
    ensures { Tells (overlap_told job j k (length res.old)) res.old result res.new }
{
    match job {
        Job::Account => account_lines::tell_overlap(j, k, res),
        Job::Edit | Job::Find(_) | Job::Share | Job::Kept => Err(Refusal::Overlap),
    }
}

// What the job answers from what is performed: its refusal, or what follows from the end of the run. Slices, and no `Work`: a job reads some of them while it writes
// others, so that each would be lent by itself again; thirteen parameters, since these are the eight that some job reads or writes.
pub fn answer(
    choices: Choices,
    job: Job,
    batch: &[u8],
    done: Result<Ended, Unplanned>,
    table: &[u32],
    source: &[u32],
    changes: &[u32],
    marks: &[u32],
    rows: &[u32],
    notes: &mut [u32],
    changed: &mut [u32],
    starts: &mut [u32],
    res: &mut [u8],
) -> Result<Told, Refusal>
    requires { ToAnswer (meant choices) batch.now table.now source.now changes.now marks.now rows.now notes.old changed.old starts.old done }
    ensures { Tells (unless done (reached (meant choices) job batch.now (length res.old))) res.old result res.new }
{
    match done {
        Err(unplanned) => match unplanned {
            Unplanned::Refused(refusal) => Err(refusal),
            Unplanned::Overlap(o) => overlapping(job, o.earlier, o.later, res),
        },
        Ok(d) => match job {
            Job::Edit => write_answer(choices, batch, d, rows, notes, changed, starts, res),
            Job::Find(k) => Ok(find_from(choices, batch, d, table, source, rows, k)),
            Job::Account => { account_from(choices, batch, d, changes, rows, notes, changed, res) }
            Job::Share => Ok(share_from(choices, batch, d, rows, notes, changed)),
            Job::Kept => kept_from(choices, batch, d, source, marks, rows, res),
        },
    }
}
