// The account program: reads its choices, the first two arguments, and a batch on standard input, and prints what becomes of each change.
// How long a batch may be and room in a lent slice stand as clauses: a value around each would be no plainer than its bound.
#![tactic(auto)]

ghost use Rattle.std.specs.Prelude.{◌≡◌, ◌≤◌, length, OnOk};
ghost use Rattle.choices.specs.Meant.{meant};
ghost use Rattle.definition.specs.Account.{account_printed};
ghost use Rattle.program_input.specs.Told.{Writes};
ghost use Rattle.account_program.specs.Responds.{Tells, judged_in_room};

use choices::Choices;
use program_input::Program;
use promises::Work;
use refusals::Refusal;
use std::io;
use std::io::{Read, Write};
use std::rt::Env;

// The account of a batch, its text at the front of `out`. The work slices are made here, of the lengths of docs/WORK.md: what a closure of `promises::with_work` leaves in a slice that it captures is not told to its caller (tried).
fn account_batch(choices: Choices, batch: &[u8], out: &mut [u8]) -> Result<usize, Refusal>
    requires { (length batch.now ≤ 65536) × (8192 ≡ length out.old) }
    ensures { Tells (meant choices) batch.now result out.new }
{
    let mut table = [0u32; 16384];
    let mut source = [0u32; 6147];
    let mut changes = [0u32; 3840];
    let mut notes = [0u32; 3072];
    let mut incoming = [0u32; 3072];
    let mut changed = [0u32; 1024];
    let mut marks = [0u32; 2048];
    let mut rows = [0u32; 12291];
    let mut prepared = [0u32; 12288];
    let mut work = Work {
        table: &mut table,
        source: &mut source,
        changes: &mut changes,
        notes: &mut notes,
        incoming: &mut incoming,
        changed: &mut changed,
        marks: &mut marks,
        rows: &mut rows,
        prepared: &mut prepared,
    };
    edit_algo::account(choices, batch, out, &mut work)
}

// The program by its choices.
#[derive(Clone, Copy)]
pub struct Accounting {
    pub choices: Choices,
}

impl Program<65536, 8192> for Accounting {
    ghost says = { λ p. account_printed (meant p.choices) };

    ghost takes = { λ out. 8192 ≡ length out };

    ghost room = { λ out e. e };

    // The text, or a refusal's number alone.
    fn answer(&self, batch: &[u8], out: &mut [u8]) -> usize {
        match account_batch(self.choices, batch, out) {
            Err(refusal) => account_lines::print_refusal(out, refusal.number()),
            Ok(n) => n,
        }
    }

    ghost cut = { λ p bs. judged_in_room (meant p.choices) bs };
}

// Reads a batch and prints what is printed of it. Where a read fails, of what was read before, and then ends with that error. Where it is known what bytes the input has left and the output holds, what is printed of those comes behind these.
pub fn serve<R: Read, W: Write>(choices: Choices, from: &mut R, to: &mut W) -> io::Result<()>
    ensures { OnOk result (Writes (account_printed (meant choices)) (R.remaining from.old) (W.contents to.old) (W.contents to.new)) }
{
    program_input::serve(&Accounting { choices }, from, to)
}

// The whole program, on standard input and output. Which bytes the operating system gives, and how many of those printed it takes, is not promised.
pub fn run<R: Env + Input + Print>(rt: &R) -> io::Result<()> {
    let choices = program_choices::choices(rt);
    serve(choices, &mut rt.reader(), &mut io::writer(rt))
}
