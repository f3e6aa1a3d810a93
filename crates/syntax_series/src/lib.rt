// The calls on a series of edits for C and Rust (document 02, Note 14): a slice is a pointer and a length, an outcome is one number. The slices come one by one,
// since C lends them so.
#![tactic(auto)]

ghost use Rattle.std.specs.Prelude.{◌∷◌, []};
ghost use Rattle.series_leave.specs.Leaving.{lent_of};
ghost use Rattle.syntax_series.specs.Returned.{ReturnsStart, ReturnsFollow};

use choices::Choices;
use edit_numbers::{negative, number_written};
use promises::Work;

// THE FIRST CALL of a series: 0 if it may begin with this tree and these bookmarks, or a refusal's number (1, 3, 4, 5, 20 or 21) with a minus. `rows` is a work slice, which ends as
// zeros.
#[unsafe(no_mangle)]
pub extern "C" fn syntax_series_start(tree: &[u8], bookmarks: &[u32], rows: &mut [u32]) -> i64
    ensures { ReturnsStart (lent_of tree.now bookmarks.now) rows.old result rows.new }
{
    match series::start(tree, bookmarks, rows) {
        Ok(()) => 0,
        Err(refusal) => negative(refusal.number()),
    }
}

// A LATER CALL of a series: the length of the answer, which stands at the front of `res`; `tree` and `bookmarks` then hold the new tree and the bookmarks that survive. Or a refusal's
// number with a minus, and these three are as they were. The nine others are work slices, which end as zeros.
#[unsafe(no_mangle)]
pub extern "C" fn syntax_series_follow(
    edge: usize,
    stronger: usize,
    batch: &[u8],
    tree: &mut [u8],
    bookmarks: &mut [u32],
    res: &mut [u8],
    table: &mut [u32],
    source: &mut [u32],
    changes: &mut [u32],
    notes: &mut [u32],
    incoming: &mut [u32],
    changed: &mut [u32],
    marks: &mut [u32],
    rows: &mut [u32],
    prepared: &mut [u32],
) -> i64
    ensures { ReturnsFollow (record { edge = edge; stronger = stronger }) batch.now (lent_of tree.old bookmarks.old) res.old (table.old ∷ source.old ∷ changes.old ∷ notes.old ∷ incoming.old ∷ changed.old ∷ marks.old ∷ rows.old ∷ prepared.old ∷ []) result res.new (lent_of tree.new bookmarks.new) (table.new ∷ source.new ∷ changes.new ∷ notes.new ∷ incoming.new ∷ changed.new ∷ marks.new ∷ rows.new ∷ prepared.new ∷ []) }
{
    let mut work = Work {
        table,
        source,
        changes,
        notes,
        incoming,
        changed,
        marks,
        rows,
        prepared,
    };
    let told = series::follow(
        Choices { edge, stronger },
        batch,
        tree,
        bookmarks,
        res,
        &mut work,
    );
    number_written(told)
}
