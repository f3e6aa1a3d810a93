// What a later call of a series answers from what its run leaves: 13, or the result's bytes and the memory as it is left (document 02, Note 14).
// What is known at the end of the run (`ToLeave`, `ToAnswer`) stands as a clause: it names the definition's memory and run, which are data.
#![tactic(auto)]

ghost use Rattle.std.specs.Prelude.{length};
ghost use Rattle.choices.specs.Meant.{meant};
ghost use Rattle.series_leave.specs.Leaving.{lent_of};
ghost use Rattle.series_follow.specs.Performing.{reached_on, afterwards};
ghost use Rattle.series_answer.specs.Telling.{TellsOn};
ghost use Rattle.series_answer.specs.Ends.{ToLeave, ToAnswer};

use choices::Choices;
use edit_perform::{Ended, Unplanned};
use finish_arrays::Tally;
use finish_model::Left;
use finish_result::finish;
use refusals::Refusal;
use rows_syntax_node::Rows;
use run_annotations::NOTE_WORDS;
use series_leave::leave;
use series_move::RunEnd;
use series_tree::lacks_room;

// At the end of the run: 13 where the memory or the result slice is too short, before anything is written; else both are written, and the result has so many bytes. `starts` is for where each element's text starts, and then for what the rows tell of bookmarks.
// Over 40 lines by its twelve parameters, of which a part of the body would be handed ten again. `choices` is for the contract, which tells the definition's answer by them: a ghost value in
// its place would have to be picked by `series::follow`, and a pick goes by the arguments of the call, of which there would be none with the choices.
fn answer_end<'a>(
    choices: Choices,
    batch: &[u8],
    d: Ended,
    source: &'a [u32],
    marks: &'a [u32],
    rows: &'a [u32],
    notes: &mut [u32],
    changed: &mut [u32],
    starts: &mut [u32],
    tree: &mut [u8],
    bookmarks: &mut [u32],
    res: &mut [u8],
) -> Result<usize, Refusal>
    requires { ToLeave (meant choices) tree.old bookmarks.old batch.now source.now rows.now notes.old changed.old marks.now starts.old d }
    ensures { TellsOn (reached_on (meant choices) (lent_of tree.old bookmarks.old) batch.now (length res.old)) (lent_of tree.old bookmarks.old) res.old result res.new (lent_of tree.new bookmarks.new) }
{
    let from = d.text;
    let text = &batch[from..];
    let new = Rows {
        count: d.rows,
        words: rows,
    };
    if lacks_room(&new, text, tree.len()) {
        return Err(Refusal::ShortResult);
    }
    let left = Left { rows: new };
    let tally = Tally {
        discarded: d.discarded,
        climbs: d.climbs,
    };
    let k = NOTE_WORDS * d.notes;
    let c = d.changed;
    let n = finish(
        &left,
        &mut notes[..k],
        &mut changed[..c],
        starts,
        text,
        &tally,
        res,
    )?;
    let run = RunEnd {
        elements: d.elements,
        source,
        marks,
        rows: new,
    };
    leave(&run, text, tree, bookmarks, starts);
    Ok(n)
}

// What is answered from what is performed: its refusal, 8 where two changes overlap, or what follows from the end of the run. Slices, and no `Work`: some are read
// while others are written, so that each would be lent by itself again.
pub fn answer<'a>(
    choices: Choices,
    batch: &[u8],
    done: Result<Ended, Unplanned>,
    source: &'a [u32],
    marks: &'a [u32],
    rows: &'a [u32],
    notes: &mut [u32],
    changed: &mut [u32],
    starts: &mut [u32],
    tree: &mut [u8],
    bookmarks: &mut [u32],
    res: &mut [u8],
) -> Result<usize, Refusal>
    requires { ToAnswer (meant choices) tree.old bookmarks.old batch.now source.now rows.now notes.old changed.old marks.now starts.old done }
    ensures { TellsOn (afterwards done (reached_on (meant choices) (lent_of tree.old bookmarks.old) batch.now (length res.old))) (lent_of tree.old bookmarks.old) res.old result res.new (lent_of tree.new bookmarks.new) }
{
    match done {
        Err(unplanned) => match unplanned {
            Unplanned::Refused(refusal) => Err(refusal),
            Unplanned::Overlap(_) => Err(Refusal::Overlap),
        },
        Ok(d) => answer_end(
            choices, batch, d, source, marks, rows, notes, changed, starts, tree, bookmarks, res,
        ),
    }
}
