// What programs share: input read whole, by words or by parts; the frame of a program that answers its input; arguments; words printed in a line.
// How long lent buffers are stands as a clause: a value around each would be no plainer than its bound.
#![tactic(auto)]

ghost use Rattle.std.specs.Prelude.{◌≡◌, ◌<◌, ◌≤◌, ◌^◌, ℕ, List, length, take, IfOk, OnOk};
ghost use Rattle.std.specs.Io.KnownBytes.{Consumes, IsAtEnd};
ghost use Rattle.program_input.specs.Counts.{IsPrefixLen};
ghost use Rattle.program_input.specs.Told.{Prints, Responds, Writes};
ghost use Rattle.program_input.specs.Parts.{ReadsWord, ReadsPart};

use std::env::Env;
use std::io;
use std::io::{Read, Write};

// What filling a buffer came to: how many bytes were read, and whether reading ended well. No `Result` of the count: it is told too where a read fails.
#[derive(Drop)]
pub struct Filled {
    pub count: usize,
    pub ended: io::Result<()>,
}

// Reads into the front of `buf` until it is full or the input ends, or a read fails: what was read before stands there then. The count lies in the buffer. Where it is
// known what bytes the input has left, these are the next of them, and fewer than the buffer holds only where no more are left or a read failed. A loop of its own, since
// `read_exact` says nothing of what was read before it failed; a `while`, since each turn reads as many bytes as the input gives.
pub fn read_full<R: Read>(from: &mut R, buf: &mut [u8]) -> Filled
    ensures bound { IsPrefixLen result.count buf.new }
    ensures bytes { Consumes (R.remaining from.old) (R.remaining from.new) (take result.count buf.new) }
    ensures end { OnOk result.ended (result.count < length buf.new → IsAtEnd (R.remaining from.new)) }
{
    let mut done = 0;
    while done < buf.len() {
        match from.read(&mut buf[done..]) {
            Ok(0) => break,
            Ok(n) => done += n,
            Err(e) => {
                return Filled {
                    count: done,
                    ended: Err(e),
                };
            }
        }
    }
    Filled {
        count: done,
        ended: Ok(()),
    }
}

// The next word of the input, the low byte first; nothing where fewer than four bytes are left, which `read_exact` would call an error.
pub fn read_word<R: Read>(from: &mut R) -> io::Result<Option<usize>>
    ensures { IfOk result (λ word. ReadsWord (R.remaining from.old) (R.remaining from.new) word) }
{
    let mut four = [0u8; 4];
    let Filled { count, ended } = read_full(from, &mut four);
    ended?;
    if count < 4 {
        return Ok(None);
    }
    Ok(Some(u32::from_le_bytes(four) as usize))
}

// The next word, and as many bytes behind it as it says, into the front of `part`; nothing where the input ends before, or the part has no room for them.
pub fn read_part<R: Read>(from: &mut R, part: &mut [u8]) -> io::Result<Option<usize>>
    ensures { IfOk result (λ n. ReadsPart (R.remaining from.old) (R.remaining from.new) part.new n) }
{
    let Some(n) = read_word(from)? else {
        return Ok(None);
    };
    if part.len() < n {
        return Ok(None);
    }
    let Filled { count, ended } = read_full(from, &mut part[..n]);
    ended?;
    if count == n { Ok(Some(n)) } else { Ok(None) }
}

// A program that prints something of its input: it reads the first `IN` bytes, and writes what it prints of them at the front of `OUT`.
pub trait Program<const IN: usize, const OUT: usize> {
    // What it prints of an input.
    ghost says: { Self → List ℕ → List ℕ };

    // Which outputs it takes: those of `OUT` bytes, and longer ones where it says so.
    ghost takes: { List ℕ → Type 0 };

    ghost room: { (out : List ℕ) → OUT ≡ length out → takes out };

    // What is printed of the input is written at the front of `out`.
    fn answer(&self, input: &[u8], out: &mut [u8]) -> usize
        requires { (length input.now ≤ IN) × takes out.old }
        ensures { Prints (says self.now) input.now out.new result };

    // No more of an input matters than there is room for.
    ghost cut: { (program : Self) (bs : List ℕ) → says program (take IN bs) ≡ says program bs };
}

// How many bytes of the input were read, and how many of the output are to be printed.
#[derive(Clone, Copy)]
pub struct Response {
    pub read: usize,
    pub written: usize,
}

// Reads an input and writes what is printed of it at the front of `out`, and answers besides whether reading ended well. The bytes judged are the first `read` of the
// input's buffer, as reading left it: where it is known what bytes the input has left, the next of them. Of standard input nothing is known: no contract says which
// bytes the operating system puts there, nor how many they are.
pub fn respond<const IN: usize, const OUT: usize, P: Program<IN, OUT>, R: Read>(
    program: &P,
    from: &mut R,
    input: &mut [u8],
    out: &mut [u8],
) -> (Response, io::Result<()>)
    requires { (IN ≡ length input.old) × P.takes out.old }
    ensures responds { Responds (P.says program.now) input.new result.0.read out.new result.0.written }
    ensures bytes { Consumes (R.remaining from.old) (R.remaining from.new) (take result.0.read input.new) }
    ensures end { OnOk result.1 (result.0.read < length input.new → IsAtEnd (R.remaining from.new)) }
{
    let filled = read_full(from, input);
    let read = filled.count;
    let written = program.answer(&input[..read], out);
    (Response { read, written }, filled.ended)
}

// Reads an input and prints what is printed of it. Where a read fails, of what was read before, and then ends with that error. Where it is known what bytes the input has
// left and the output holds, what is printed of those comes behind these.
pub fn serve<const IN: usize, const OUT: usize, P: Program<IN, OUT>, R: Read, W: Write>(
    program: &P,
    from: &mut R,
    to: &mut W,
) -> io::Result<()>
    requires { (IN < 2 ^ 63) × (OUT < 2 ^ 63) }
    ensures { OnOk result (Writes (P.says program.now) (R.remaining from.old) (W.contents to.old) (W.contents to.new)) }
{
    let mut input = [0u8; IN];
    let mut out = [0u8; OUT];
    let (response, ended) = respond(program, from, &mut input, &mut out);
    to.write_all(&out[..response.written])?;
    ended
}

// Reads argument `i` into the front of `buf`. One that is missing or longer is read as an empty one.
pub fn read_argument(rt: &impl Env, i: usize, buf: &mut [u8]) -> usize
    ensures { IsPrefixLen result buf.new }
{
    rt.arg(i, buf).unwrap_or(0)
}

// Prints words in a line.
pub fn print_words(rt: &impl Print, words: &[u32]) -> io::Result<()> {
    for word in words {
        print!(rt; "{word} ")?;
    }
    println!(rt)
}
