// The load program: writes the batch of a starting number, its argument, to standard output (document 02, Note 12).
// Room in a lent slice stands as a clause: a value around each would be no plainer than its bound.
#![tactic(auto)]

ghost use Rattle.std.specs.Prelude.{◌≡◌, ◌≤◌, length, IfOk, OnOk};
ghost use Rattle.std.specs.Io.KnownBytes.{Appends};
ghost use Rattle.definition.specs.Writing.{laid_out};
ghost use Rattle.load_laws.specs.Load.{load};
ghost use Rattle.orders.specs.Lists.{meant};
ghost use Rattle.load_program.specs.Start.{start_of};
ghost use Rattle.load_program.specs.Responds.{told, Puts};

use std::io;
use std::io::Write;
use std::rt::Env;
use write_batch::Work;

// The starting number that an argument tells. By `parse` it would be no plainer: that takes a sign too, and asks for text first.
fn start_of(argument: &[u8]) -> Option<u32>
    ensures { meant result ≡ start_of argument.now }
{
    if argument.is_empty() {
        return None;
    }
    let mut n: u32 = 0;
    for byte in argument {
        if !byte.is_ascii_digit() {
            return None;
        }
        n = n.checked_mul(10)?.checked_add(u32::from(*byte - b'0'))?;
    }
    Some(n)
}

// The load of a starting number is written at the front of `out`, with work slices of its own. With room for it a load is not refused.
pub fn write_load(start: u32, out: &mut [u8]) -> usize
    requires { 8632 ≤ length out.old }
    ensures { Puts (laid_out (load start)) out.new result }
{
    let mut draft = [0u8; 49180];
    let mut table = [0u32; 16384];
    let mut source = [0u32; 6147];
    let mut work = Work {
        draft: &mut draft,
        table: &mut table,
        source: &mut source,
    };
    match load_batch::load(start, out, &mut work) {
        Ok(n) => n,
        Err(_) => unreachable!(),
    }
}

// What is printed of an argument is written at the front of `out`: nothing of one that tells no starting number.
#[tactic(auto, using(crate::specs::Responds::respond_number, crate::specs::Responds::respond_none))]
pub fn respond(argument: &[u8], out: &mut [u8]) -> usize
    requires { 8632 ≤ length out.old }
    ensures { Puts (told (start_of argument.now)) out.new result }
{
    match start_of(argument) {
        Some(start) => write_load(start, out),
        None => 0,
    }
}

// Prints what is printed of an argument, and answers how many bytes that is. No `Program` of `program_input`: it reads an argument and no input.
pub fn serve<W: Write>(argument: &[u8], to: &mut W) -> io::Result<usize>
    ensures length { IfOk result (λ n. n ≡ length (told (start_of argument.now))) }
    ensures bytes { OnOk result (Appends (W.contents to.old) (W.contents to.new) (told (start_of argument.now))) }
{
    let mut out = [0u8; 8632];
    let written = respond(argument, &mut out);
    to.write_all(&out[..written])?;
    Ok(written)
}

// The whole program. An argument of more than 32 bytes is read as an empty one, so it is no starting number. No contract says which bytes the operating
// system gives, nor how many of those written it takes. 0 bytes are printed just of what tells no starting number: what is promised of `serve` is the
// length of what it prints, and an `Option` of it would be that test again.
pub fn run<R: Env + Print + Eprint>(rt: &R) -> io::Result<()> {
    let mut argument = [0u8; 32];
    let length = program_input::read_argument(rt, 1, &mut argument);
    let written = serve(&argument[..length], &mut io::writer(rt))?;
    if written == 0 {
        eprintln!(rt; "load START: START is a number from 0 to 4294967295")?;
    }
    Ok(())
}
