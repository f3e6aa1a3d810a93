// The account's text (document 02, Notes 5 and 9), written into a lent slice. It is drafted first, so that 13 is told before anything is written.
// Bounds of one number and room in a lent slice stand as clauses: a value around each would be no plainer than its bound.
#![tactic(auto)]

ghost use Rattle.std.specs.Prelude.{◌+◌, ◌*◌, ◌≤◌, length};
ghost use Rattle.definition.specs.Basics.{refused};
ghost use Rattle.definition.specs.Account.{withdrawn, fate_line, said_line, said_lines, overlap_line, tell};
ghost use Rattle.edit_print.specs.Lines.{Put};
ghost use Rattle.promises.specs.Serving.{Tells};
ghost use Rattle.account_lines.specs.Lines.{fate_in, said_rows, tell_in};

use edit_print::{put_digits, put_line};
use promises::Told;
use record_changes::{Fate, field};
use refusals::Refusal;

// The line of change `n` is written at `at`, by its fate and the number of its owner.
#[tactic(auto, using(crate::proofs::Turns::named_room))]
fn put_fate(out: &mut [u8], at: usize, n: usize, fate: usize, owner: usize) -> usize
    requires { at + 32 ≤ length out.old }
    ensures { Put out.old at (fate_line (n, fate_in fate owner)) out.new result }
{
    let to = put_digits(out, at, n, 10);
    if fate == Fate::Own as usize {
        return put_line(out, to, b" own", &[]);
    }
    if fate == Fate::Dependent as usize {
        return put_line(out, to, b" dependent", &[owner]);
    }
    put_line(out, to, b" discarded", &[owner])
}

// The line of change `n`, which is withdrawn under change `k`, is written at `at`.
#[tactic(auto, using(crate::proofs::Turns::named_room))]
fn put_withdrawn(out: &mut [u8], at: usize, n: usize, k: usize) -> usize
    requires { at + 32 ≤ length out.old }
    ensures { Put out.old at (said_line (n, withdrawn k)) out.new result }
{
    let to = put_digits(out, at, n, 10);
    put_line(out, to, b" withdrawn", &[k])
}

// The lines of all changes are written at the front: the rows are those of the changes that stay, and `withdrawn` tells of each change under which it is
// withdrawn, index + 1 (0 = it stays). A row names places of rows, a line numbers of changes.
fn put_account(out: &mut [u8], rows: &[u32], withdrawn: &[u32]) -> usize
    requires { (length withdrawn.now ≤ 256) × (32 * length withdrawn.now ≤ length out.old) }
    ensures { Put out.old 0 (said_lines (said_rows rows.now withdrawn.now)) out.new result }
{
    let mut to = 0;
    let mut place = 0;
    for (i, stated) in withdrawn.iter().enumerate() {
        if let Some(k) = (*stated as usize).checked_sub(1) {
            to = put_withdrawn(out, to, i, k);
            continue;
        }
        let fate = field(rows, place, record_changes::FATE);
        let owner = field(rows, place, record_changes::OWNER);
        let number = plan_withdraw::number_of(withdrawn, owner);
        to = put_fate(out, to, i, fate, number);
        place += 1;
    }
    to
}

// A draft goes to the front of the result, or 13. Beside `write_batch::copy_out`: another refusal and another answer, so that one function would take both.
fn hand_out(draft: &[u8], res: &mut [u8]) -> Result<Told, Refusal>
    ensures { Tells (tell_in (length res.old) draft.now) res.old result res.new }
{
    let n = draft.len();
    if res.len() < n {
        return Err(Refusal::ShortResult);
    }
    words::copy_in(res, 0, draft);
    Ok(Told::Bytes(n))
}

// What became of each change, a line each, at the front of the result, or 13.
pub fn tell_account(rows: &[u32], withdrawn: &[u32], res: &mut [u8]) -> Result<Told, Refusal>
    requires { length withdrawn.now ≤ 256 }
    ensures { Tells (tell_in (length res.old) (said_lines (said_rows rows.now withdrawn.now))) res.old result res.new }
{
    let mut draft = [0u8; 8192];
    let n = put_account(&mut draft, rows, withdrawn);
    hand_out(&draft[..n], res)
}

// Which two changes overlap, at the front of the result, or 13.
pub fn tell_overlap(j: usize, k: usize, res: &mut [u8]) -> Result<Told, Refusal>
    ensures { Tells (tell_in (length res.old) (overlap_line j k)) res.old result res.new }
{
    let mut draft = [0u8; 30];
    let n = put_line(&mut draft, 0, b"overlap", &[j, k]);
    hand_out(&draft[..n], res)
}

// What the account program prints of a refusal is written at the front. A number, as edit_print takes it.
pub fn print_refusal(out: &mut [u8], number: usize) -> usize
    requires { 11 ≤ length out.old }
    ensures { Put out.old 0 (tell (refused number)) out.new result }
{
    let to = put_digits(out, 0, number, 10);
    put_line(out, to, &[], &[])
}
