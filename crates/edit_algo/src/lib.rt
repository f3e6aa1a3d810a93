// The public calls: one for every job, and the edit, the found element, the account, the share and the surviving pairs, each thin over it.
// Which answers can come stands as a clause: `Told` holds those of every job, and the promise of `serve` says which.
// `choices`, `batch`, `res` and `work` are parameters of each call: a struct of them would be made for one call and taken apart in it, two of the four to be written.
#![tactic(auto)]

ghost use Rattle.choices.specs.Meant.{meant};
ghost use Rattle.promises.specs.Lent.{held, Same};
ghost use Rattle.promises.specs.Promises.{Edits, Finds, Accounts, Shares, Keeps};
ghost use Rattle.promises.specs.Serving.{Serves};
ghost use Rattle.refusals.specs.Numbers.{answered};
ghost use Rattle.edit_algo.specs.Numbers.{element_of, share_of, LengthTold, PlaceTold, ShareTold, TellsLength, TellsPlace, TellsShare};

use choices::Choices;
use edit_answer::Thousandths;
use edit_perform::perform;
use promises::{Job, Told, Work};
use refusals::Refusal;

// ── One call for all ──

// THE CALL for every job: refusals 17, 18 and 1, the run of the batch, what the job answers from what the run leaves, and every work slice cleared. What the
// job writes stands at the front of `res`; the work slices end as zeros. The job is a value, since refusals and the order of what is written and cleared are then
// promised once; a type for each job would have that promise once for each.
pub fn serve(
    choices: Choices,
    job: Job,
    batch: &[u8],
    res: &mut [u8],
    work: &mut Work,
) -> Result<Told, Refusal>
    ensures same { Same work.old work.new }
    ensures serves { Serves (meant choices) job batch.now res.old (held work.old) result res.new (held work.new) }
{
    let done = perform(choices, batch, work);
    // Lent before the call: in it none of these may be read while another field is lent.
    let table = &mut *work.table;
    let source = &mut *work.source;
    let changes = &mut *work.changes;
    let marks = &mut *work.marks;
    let rows = &mut *work.rows;
    let told = edit_answer::answer(
        choices,
        job,
        batch,
        done,
        table,
        source,
        changes,
        marks,
        rows,
        work.notes,
        work.changed,
        work.prepared,
        res,
    );
    promises::clear_all(work);
    told
}

// ── The public calls ──

// Three, one for each of what is told: over one function with a closure each call would prove again that the others are unreachable.

// What is told of an edit, an account or pairs. (None finds an element or tells a share.)
fn answer_in(told: Result<Told, Refusal>) -> Result<usize, Refusal>
    requires { LengthTold told }
    ensures { TellsLength told result }
{
    match told? {
        Told::Bytes(n) => Ok(n),
        Told::Place(_) => unreachable!(),
        Told::Of(_, _) => unreachable!(),
    }
}

// What is told of an element. (Who finds writes no bytes.)
fn element_in(told: Result<Told, Refusal>) -> Result<Option<usize>, Refusal>
    requires { PlaceTold told }
    ensures { TellsPlace told result }
{
    match told? {
        Told::Bytes(_) => unreachable!(),
        Told::Place(place) => Ok(place),
        Told::Of(_, _) => unreachable!(),
    }
}

// What is told of a share. (It writes no bytes and finds no element.)
fn share_in(told: Result<Told, Refusal>) -> Result<Thousandths, Refusal>
    requires { ShareTold told }
    ensures { TellsShare told result }
{
    match told? {
        Told::Bytes(_) => unreachable!(),
        Told::Place(_) => unreachable!(),
        Told::Of(quotient, remainder) => Ok(Thousandths {
            quotient,
            remainder,
        }),
    }
}

// THE EDIT of a batch. The result's bytes are written to the front of `res`; the work slices end as zeros.
pub fn edit(
    choices: Choices,
    batch: &[u8],
    res: &mut [u8],
    work: &mut Work,
) -> Result<usize, Refusal>
    ensures same { Same work.old work.new }
    ensures edits { Edits (meant choices) batch.now res.old (held work.old) (answered result) res.new (held work.new) }
{
    answer_in(serve(choices, Job::Edit, batch, res, work))
}

// The first node of the new tree with the kind and the text start of the old tree's node `number`. The work slices end as zeros.
pub fn find_element(
    choices: Choices,
    batch: &[u8],
    number: usize,
    work: &mut Work,
) -> Result<Option<usize>, Refusal>
    ensures same { Same work.old work.new }
    ensures finds { Finds (meant choices) batch.now number (held work.old) (element_of result) (held work.new) }
{
    let mut none = [0u8; 0];
    element_in(serve(choices, Job::Find(number), batch, &mut none, work))
}

// THE ACCOUNT of a batch: what becomes of each change, a line each, in sorted order; or which two overlap. The text is written to the front of `res`; the
// work slices end as zeros.
pub fn account(
    choices: Choices,
    batch: &[u8],
    res: &mut [u8],
    work: &mut Work,
) -> Result<usize, Refusal>
    ensures same { Same work.old work.new }
    ensures accounts { Accounts (meant choices) batch.now res.old (held work.old) (answered result) res.new (held work.new) }
{
    answer_in(serve(choices, Job::Account, batch, res, work))
}

// THE SHARE OF TEXT REWRITTEN by a batch: the bytes of the new tree that lie in a changed element, in thousandths of all its bytes; of an empty text 0 and 0. The work
// slices end as zeros.
pub fn share(choices: Choices, batch: &[u8], work: &mut Work) -> Result<Thousandths, Refusal>
    ensures same { Same work.old work.new }
    ensures shares { Shares (meant choices) batch.now (held work.old) (share_of result) (held work.new) }
{
    let mut none = [0u8; 0];
    share_in(serve(choices, Job::Share, batch, &mut none, work))
}

// THE SURVIVING PAIRS of a batch's edit: each element of the old tree that is in the new tree, with its number there, by rising old numbers. All old numbers, then all
// new ones, are written to the front of `res`, a word of four bytes each; the work slices end as zeros.
pub fn kept(
    choices: Choices,
    batch: &[u8],
    res: &mut [u8],
    work: &mut Work,
) -> Result<usize, Refusal>
    ensures same { Same work.old work.new }
    ensures keeps { Keeps (meant choices) batch.now res.old (held work.old) (answered result) res.new (held work.new) }
{
    answer_in(serve(choices, Job::Kept, batch, res, work))
}
