// The public calls on a series of edits (document 02, Note 14).
// The memory's two slices come apart, as C lends them (DECISIONS 60): both are written.
#![tactic(auto)]

ghost use Rattle.std.specs.Prelude.{◌≡◌, ◌∷◌, []};
ghost use Rattle.choices.specs.Meant.{meant};
ghost use Rattle.promises.specs.Lent.{held, Same};
ghost use Rattle.promises.specs.Slices.{lengths};
ghost use Rattle.refusals.specs.Numbers.{answered};
ghost use Rattle.series_check.specs.Judged.{judged};
ghost use Rattle.series_laws.specs.Lent.{started};
ghost use Rattle.series_leave.specs.Leaving.{lent_of};
ghost use Rattle.series.specs.Promises.{start_needs, Starts, Follows};

use choices::Choices;
use promises::Work;
use refusals::Refusal;

// How many words the first call is lent: half of them for the rows of 2,048 elements, half for where their children stand.
pub const ROWS: usize = 12288;

// How many elements a starting tree may have: as many as a batch.
pub const MOST_AT_START: usize = 2048;

// Whether a series may begin with this tree and its bookmarks.
fn judge_start(tree: &[u8], bookmarks: &[u32], rows: &mut [u32]) -> Result<(), Refusal>
    ensures { answered result ≡ judged (started (lengths start_needs (rows.old ∷ [])) (record { tree = tree.entry.now; bookmarks = bookmarks.now })) }
{
    if rows.len() < ROWS {
        return Err(Refusal::ShortWork);
    }
    let (rows, spare) = rows.split_at_mut(ROWS / 2);
    series_check::judge(MOST_AT_START, tree, bookmarks, rows, spare)
}

// THE FIRST CALL of a series: whether it may begin with this tree and these bookmarks, or the refusal out of 1, 3, 4, 5, 20 and 21. Nothing is written but the work slice `rows`, which ends as zeros.
pub fn start(tree: &[u8], bookmarks: &[u32], rows: &mut [u32]) -> Result<(), Refusal>
    ensures { Starts (record { tree = tree.entry.now; bookmarks = bookmarks.now }) rows.old result rows.new }
{
    let told = judge_start(tree, bookmarks, rows);
    rows.fill(0);
    told
}

// A LATER CALL of a series: the batch is edited, its result written to the front of `res`, and the memory then holds the new tree and the bookmarks that survive, each with its
// path of now. How many bytes the result has, or the refusal out of 1 to 13, 16 to 18 and 20 to 22: then the result slice and both slices of the memory are as they were. The work
// slices end as zeros.
pub fn follow(
    choices: Choices,
    batch: &[u8],
    tree: &mut [u8],
    bookmarks: &mut [u32],
    res: &mut [u8],
    work: &mut Work,
) -> Result<usize, Refusal>
    ensures same { Same work.old work.new }
    ensures follows { Follows (meant choices) batch.now (lent_of tree.old bookmarks.old) res.old (held work.old) result res.new (lent_of tree.new bookmarks.new) (held work.new) }
{
    let done = series_follow::perform(choices, batch, tree, bookmarks, work);
    // Lent before the call: in it none of these may be read while another field is lent.
    let source = &mut *work.source;
    let marks = &mut *work.marks;
    let rows = &mut *work.rows;
    let told = series_answer::answer(
        choices,
        batch,
        done,
        source,
        marks,
        rows,
        work.notes,
        work.changed,
        work.prepared,
        tree,
        bookmarks,
        res,
    );
    promises::clear_all(work);
    told
}
