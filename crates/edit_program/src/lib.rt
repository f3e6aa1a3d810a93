// The edit program: reads its choices, the first two arguments, and a batch on standard input, and prints the batch's answer.
// How long a batch may be and room in a lent slice stand as clauses: a value around each would be no plainer than its bound.
#![tactic(auto)]

ghost use Rattle.std.specs.Prelude.{◌≡◌, ◌≤◌, length, OnOk};
ghost use Rattle.choices.specs.Meant.{meant};
ghost use Rattle.definition.specs.Printed.{printed};
ghost use Rattle.program_input.specs.Told.{Writes, enough};
ghost use Rattle.edit_print.specs.Lines.{Put};
ghost use Rattle.edit_program.specs.Told.{Showable, told, Tells};
ghost use Rattle.edit_program.specs.Responds.{judged_in_room};

use choices::Choices;
use program_input::Program;
use promises::Work;
use refusals::Refusal;
use std::io;
use std::io::{Read, Write};
use std::rt::Env;

// The answer to a batch, its result at the front of `res`. The work slices are made here, of the lengths of docs/WORK.md: what a closure of `promises::with_work` leaves in a slice that it captures is not told to its caller (tried).
fn edit_batch(choices: Choices, batch: &[u8], res: &mut [u8]) -> Result<usize, Refusal>
    requires { (length batch.now ≤ 65536) × (65536 ≡ length res.old) }
    ensures { Tells (meant choices) batch.now result res.new }
{
    let mut table = [0u32; 16384];
    let mut source = [0u32; 6147];
    let mut changes = [0u32; 3840];
    let mut notes = [0u32; 3072];
    let mut incoming = [0u32; 3072];
    let mut changed = [0u32; 1024];
    let mut marks = [0u32; 2048];
    let mut rows = [0u32; 12291];
    let mut prepared = [0u32; 12288];
    let mut work = Work {
        table: &mut table,
        source: &mut source,
        changes: &mut changes,
        notes: &mut notes,
        incoming: &mut incoming,
        changed: &mut changed,
        marks: &mut marks,
        rows: &mut rows,
        prepared: &mut prepared,
    };
    edit_algo::edit(choices, batch, res, &mut work)
}

// What is printed of an answer is written at the front of `out`.
fn show(answer: Result<usize, Refusal>, res: &[u8], out: &mut [u8]) -> usize
    requires { Showable answer res.now (length out.old) }
    ensures { Put out.old 0 (told answer res.now) out.new result }
{
    match answer {
        Err(refusal) => edit_print::print_refusal(out, refusal.number()),
        Ok(n) => edit_print::print_result(out, &res[..n]),
    }
}

// The program by its choices.
#[derive(Clone, Copy)]
pub struct Editing {
    pub choices: Choices,
}

impl Program<65536, 190000> for Editing {
    ghost says = { λ p. printed (meant p.choices) };

    ghost takes = { λ out. 190000 ≤ length out };

    ghost room = { λ out e. enough 190000 out e };

    fn answer(&self, batch: &[u8], out: &mut [u8]) -> usize {
        let mut result = [0u8; 65536];
        let answer = edit_batch(self.choices, batch, &mut result);
        show(answer, &result, out)
    }

    ghost cut = { λ p bs. judged_in_room (meant p.choices) bs };
}

// Reads a batch and prints what is printed of it. Where a read fails, of what was read before, and then ends with that error. Where it is known what bytes the input has left and the output holds, what is printed of those comes behind these.
pub fn serve<R: Read, W: Write>(choices: Choices, from: &mut R, to: &mut W) -> io::Result<()>
    ensures { OnOk result (Writes (printed (meant choices)) (R.remaining from.old) (W.contents to.old) (W.contents to.new)) }
{
    program_input::serve(&Editing { choices }, from, to)
}

// The whole program, on standard input and output. Which bytes the operating system gives, and how many of those printed it takes, is not promised.
pub fn run<R: Env + Input + Print>(rt: &R) -> io::Result<()> {
    let choices = program_choices::choices(rt);
    serve(choices, &mut rt.reader(), &mut io::writer(rt))
}
