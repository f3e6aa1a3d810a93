// The program `check`: reads claims on standard input and prints whether they are accepted.
// How long claims may be, an index of what is read and room in a lent slice stand as clauses: a value around each would be no plainer than its bound.
#![tactic(auto)]

ghost use Rattle.std.specs.Prelude.{◌≡◌, ◌+◌, ◌≤◌, length, OnOk};
ghost use Rattle.check_laws.specs.Check.{checked};
ghost use Rattle.check_laws.specs.Layout.{claims_from, claim_printed, verdict_line};
ghost use Rattle.check_claim.specs.Held.{claimed};
ghost use Rattle.check_claim.specs.Judging.{answer_of};
ghost use Rattle.edit_print.specs.Lines.{Put};
ghost use Rattle.program_input.specs.Told.{Writes, enough};
ghost use Rattle.check_program.specs.Responds.{answered, judged_in_room};

use check_claim::{Claims, Tree, Verdict, Work};
use program_input::Program;
use refusals::Refusal;
use std::io;
use std::io::{Read, Write};

// The claims whose lists stand one behind another, and whose texts do. The six sizes are parameters: `judge` alone reads them, and a struct would be made for this one call.
fn cut<'a>(
    lists: &'a [u32],
    texts: &'a [u8],
    old_kinds: usize,
    old_measures: usize,
    old_text: usize,
    new_kinds: usize,
    new_measures: usize,
    pairs: usize,
) -> Claims<'a>
    requires { (old_kinds + old_measures + new_kinds + new_measures + pairs + pairs ≤ length lists.now) × (length lists.now ≤ 65536) × (old_text ≤ length texts.now) }
    ensures { claimed result ≡ claims_from lists.now texts.now old_kinds old_measures old_text new_kinds new_measures pairs }
{
    let from = old_kinds + old_measures;
    let measures = from + new_kinds;
    let olds = measures + new_measures;
    let news = olds + pairs;
    let changed = news + pairs;
    Claims {
        old: Tree {
            kinds: &lists[..old_kinds],
            measures: &lists[old_kinds..from],
            text: &texts[..old_text],
        },
        new: Tree {
            kinds: &lists[from..measures],
            measures: &lists[measures..olds],
            text: &texts[old_text..],
        },
        olds: &lists[olds..news],
        news: &lists[news..changed],
        changed: &lists[changed..],
    }
}

// The verdict on claims. The work slices are made here, of the lengths of docs/WORK.md.
fn judge_claims(claims: &Claims) -> Result<Verdict, Refusal>
    ensures { answer_of result ≡ checked (claimed claims.now) }
{
    let mut before = [0u32; 16384];
    let mut after = [0u32; 16384];
    let mut partners = [0u32; 4096];
    let mut marks = [0u32; 4096];
    let mut work = Work {
        before: &mut before,
        after: &mut after,
        partners: &mut partners,
        marks: &mut marks,
    };
    check_claim::check(claims, &mut work)
}

// 2 and 4 of the layout, then the verdict on the claims.
fn judge(claim: &[u8]) -> Result<Verdict, Refusal>
    requires { length claim.now ≤ 262144 }
    ensures { answer_of result ≡ answered claim.now }
{
    if claim.len() < 32 {
        return Err(Refusal::ShortBatch);
    }
    let old_kinds = words::read_word(claim, 0);
    let old_measures = words::read_word(claim, 4);
    let old_text = words::read_word(claim, 8);
    let new_kinds = words::read_word(claim, 12);
    let new_measures = words::read_word(claim, 16);
    let new_text = words::read_word(claim, 20);
    let pairs = words::read_word(claim, 24);
    let changed = words::read_word(claim, 28);
    let n = old_kinds + old_measures + new_kinds + new_measures + 2 * pairs + changed;
    if claim.len() != 32 + 4 * n + old_text + new_text {
        return Err(Refusal::Length);
    }
    let mut lists = [0u32; 65536];
    words::read_words(claim, 32, n, &mut lists, 0);
    let at = 32 + 4 * n;
    let claims = cut(
        &lists[..n],
        &claim[at..],
        old_kinds,
        old_measures,
        old_text,
        new_kinds,
        new_measures,
        pairs,
    );
    judge_claims(&claims)
}

// What is printed of a verdict is written at the front of `out`.
#[tactic(auto, unfolding(check_laws::specs::Layout::verdict_line, check_claim::specs::Judging::answer_of, definition::specs::Printed::line, definition::specs::Printed::ascii, edit_print::specs::Lines::line_of, edit_print::specs::Lines::spaced))]
fn show(verdict: Result<Verdict, Refusal>, out: &mut [u8]) -> usize
    requires { 32 ≤ length out.old }
    ensures { Put out.old 0 (verdict_line (answer_of verdict)) out.new result }
{
    match verdict {
        Err(refusal) => edit_print::put_line(out, 0, b"refused", &[refusal.number()]),
        Ok(Verdict::Accepted) => edit_print::put_line(out, 0, b"accepted", &[]),
        Ok(Verdict::Rejected) => edit_print::put_line(out, 0, b"rejected", &[]),
    }
}

// The program, whose buffer holds 262,144 bytes of claims.
pub struct Checking;

impl Program<262144, 32> for Checking {
    ghost says = { λ _. claim_printed };

    ghost takes = { λ out. 32 ≤ length out };

    ghost room = { λ out e. enough 32 out e };

    fn answer(&self, claim: &[u8], out: &mut [u8]) -> usize {
        show(judge(claim), out)
    }

    ghost cut = { λ _ bs. judged_in_room bs };
}

// Reads claims and prints what is printed of them. Where a read fails, of what was read before, and then ends with that error. Where it is known what bytes the input has left and the output holds, what is printed of those comes behind these.
pub fn serve<R: Read, W: Write>(from: &mut R, to: &mut W) -> io::Result<()>
    ensures { OnOk result (Writes claim_printed (R.remaining from.old) (W.contents to.old) (W.contents to.new)) }
{
    program_input::serve(&Checking, from, to)
}

// The whole program, on standard input and output. Which bytes the operating system gives, and how many of those printed it takes, is not promised.
pub fn run<R: Input + Print>(rt: &R) -> io::Result<()> {
    serve(&mut rt.reader(), &mut io::writer(rt))
}
