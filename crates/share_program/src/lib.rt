// The share program: it reads a batch and prints how much of the text is rewritten.
#![tactic(auto)]

ghost use Rattle.std.specs.Prelude.{◌≡◌, length, OnOk};
ghost use Rattle.choices.specs.Meant.{meant};
ghost use Rattle.share_laws.specs.Printed.{share_printed};
ghost use Rattle.program_input.specs.Told.{Writes};
ghost use Rattle.share_program.specs.Responds.{judged_in_room};

use choices::Choices;
use program_input::Program;
use std::io;
use std::io::{Read, Write};
use std::rt::Env;

// The program by its choices.
#[derive(Clone, Copy)]
pub struct Sharing {
    pub choices: Choices,
}

impl Program<65536, 64> for Sharing {
    ghost says = { λ p. share_printed (meant p.choices) };

    ghost takes = { λ out. 64 ≡ length out };

    ghost room = { λ out e. e };

    fn answer(&self, batch: &[u8], out: &mut [u8]) -> usize {
        let told = promises::with_work(0, |work| edit_algo::share(self.choices, batch, work));
        match told {
            Err(refusal) => edit_print::print_refusal(out, refusal.number()),
            Ok(share) => edit_print::put_line(out, 0, b"share", &[share.quotient, share.remainder]),
        }
    }

    ghost cut = { λ p bs. judged_in_room (meant p.choices) bs };
}

// Reads a batch and prints what is printed of it. Where a read fails, of what was read before, and then ends with that error. Where it is known what bytes the input has left and the output holds, what is printed of those comes behind these.
pub fn serve<R: Read, W: Write>(choices: Choices, from: &mut R, to: &mut W) -> io::Result<()>
    ensures { OnOk result (Writes (share_printed (meant choices)) (R.remaining from.old) (W.contents to.old) (W.contents to.new)) }
{
    program_input::serve(&Sharing { choices }, from, to)
}

// The whole program, on standard input and output. Which bytes the operating system gives, and how many of those printed it takes, is not promised.
pub fn run<R: Env + Input + Print>(rt: &R) -> io::Result<()> {
    let choices = program_choices::choices(rt);
    serve(choices, &mut rt.reader(), &mut io::writer(rt))
}
