// Replays the recorded cases on standard input: every byte of the result, every work slice, and the elements found. Each batch is also taken apart and
// written again.
#![tactic(auto)]

ghost use Rattle.std.specs.Prelude.{◌≤◌, IfOk};

use choices::Choices;
use edit_algo::serve;
use program_input::{read_part, read_word};
use promises::{Job, Told, Work};
use refusals::Refusal;
use std::io;
use std::io::{Read, Write};
use write_again::write_again;

// What the lent slices hold before a call.
const BYTE: u8 = 0x5a;

const WORD: u32 = 0xa5a5_5a5a;

// The found element of a recorded call that finds none.
const NONE: usize = 0xffff_ffff;

// A case that the input does not hold whole.
const MISSING: Case = Case {
    agrees: false,
    again: Ok(false),
};

// Whether a case is as recorded; whether its batch comes out byte for byte when it is taken apart and written again, or its refusal.
#[derive(Clone, Copy)]
struct Case {
    agrees: bool,
    again: Result<bool, Refusal>,
}

// How many cases are not as recorded; how many batches come out byte for byte, are refused 14, and stay whole: no lists are laid out as they are, since their
// length is not what their sizes give.
#[derive(Clone, Copy)]
struct Counts {
    missed: usize,
    same: usize,
    refused: usize,
    whole: usize,
}

// Whether every work slice is all zeros.
fn all_zero(work: &Work) -> bool {
    [
        &work.table[..],
        &work.source[..],
        &work.changes[..],
        &work.notes[..],
        &work.incoming[..],
        &work.changed[..],
        &work.marks[..],
        &work.rows[..],
        &work.prepared[..],
    ]
    .iter()
    .all(|slice| slice.iter().all(|word| *word == 0))
}

// Whether a result slice holds the recorded result, and beyond it what it held.
fn holds(res: &[u8], expected: &[u8]) -> bool {
    res.strip_prefix(expected)
        .is_some_and(|rest| rest.iter().all(|byte| *byte == BYTE))
}

// Whether what an edit comes to is the recorded: a refusal, or 0 and the result's length. A number, here and in `is_due`, since a case records any word; as an
// `Option<Refusal>` it would need each refusal by its number.
fn is_answer(told: Result<Told, Refusal>, refusal: usize, length: usize) -> bool {
    match told {
        Err(refused) => refused.number() == refusal,
        Ok(Told::Bytes(n)) => refusal == 0 && n == length,
        Ok(_) => false,
    }
}

// Whether a found element is the recorded one; a refused batch finds none.
fn is_element(told: Result<Told, Refusal>, refusal: usize, found: Option<usize>) -> bool {
    match told {
        Err(refused) => refused.number() == refusal,
        Ok(Told::Place(place)) => place == found,
        Ok(_) => false,
    }
}

// Whether what an edit comes to and the result slice are as recorded.
fn is_recorded(told: Result<Told, Refusal>, res: &[u8], refusal: usize, expected: &[u8]) -> bool {
    is_answer(told, refusal, expected.len()) && holds(res, expected)
}

// What a job comes to, with work slices that hold a pattern; nothing where one of them is not all zeros then. It takes a job as the entry point under test does.
fn run_job(
    choices: Choices,
    job: Job,
    batch: &[u8],
    res: &mut [u8],
) -> Option<Result<Told, Refusal>> {
    promises::with_work(WORD, |work| {
        let told = serve(choices, job, batch, res, work);
        all_zero(work).then_some(told)
    })
}

// What was recorded of a batch: its choices, itself, its refusal's number (0 for none; a number, as `is_answer` says) and its result.
#[derive(Clone, Copy)]
struct Recorded<'a> {
    choices: Choices,
    batch: &'a [u8],
    refusal: usize,
    expected: &'a [u8],
}

// Whether the edit of a batch, its result slice and its work slices are as recorded.
fn edit_agrees(recorded: &Recorded) -> bool {
    let mut result = [BYTE; 65536];
    let Some(told) = run_job(recorded.choices, Job::Edit, recorded.batch, &mut result) else {
        return false;
    };
    is_recorded(told, &result, recorded.refusal, recorded.expected)
}

// Whether an element is found where it was recorded.
fn find_agrees(recorded: &Recorded, number: usize, found: Option<usize>) -> bool {
    let mut none = [BYTE; 0];
    let Some(told) = run_job(
        recorded.choices,
        Job::Find(number),
        recorded.batch,
        &mut none,
    ) else {
        return false;
    };
    is_element(told, recorded.refusal, found)
}

// The next element to find and where it was found: whether it is.
fn next_found<R: Read>(from: &mut R, recorded: &Recorded) -> io::Result<bool> {
    let Some(number) = read_word(from)? else {
        return Ok(false);
    };
    let Some(found) = read_word(from)? else {
        return Ok(false);
    };
    let found = (found != NONE).then_some(found);
    Ok(find_agrees(recorded, number, found))
}

// The elements to find, all of which are read: whether all are found where they were.
fn all_found<R: Read>(from: &mut R, recorded: &Recorded) -> io::Result<bool> {
    let Some(n) = read_word(from)? else {
        return Ok(false);
    };
    if 4 < n {
        return Ok(false);
    }
    let mut all = true;
    for _ in 0..n {
        all &= next_found(from, recorded)?;
    }
    Ok(all)
}

// Whether a batch comes out byte for byte when it is taken apart and written again, and the destination holds beyond it what it held.
fn rewrite(batch: &[u8]) -> Result<bool, Refusal> {
    let mut destination = [BYTE; 49184];
    let n = write_again(batch, &mut destination)?;
    Ok(n == batch.len() && holds(&destination, batch))
}

// Whether a batch with this recorded refusal comes to what it is to come to: 2 and 4 keep it whole, 5 to 7 and 16 make it 14, and so does 3, unless 4 keeps it whole;
// any other comes out byte for byte.
fn is_due(refusal: usize, again: Result<bool, Refusal>) -> bool {
    match again {
        Ok(same) => same && !matches!(refusal, 2..=7 | 16),
        Err(Refusal::ShortBatch) => refusal == 2,
        Err(Refusal::Length) => matches!(refusal, 3 | 4),
        Err(Refusal::Lists) => matches!(refusal, 3 | 5..=7 | 16),
        Err(_) => false,
    }
}

// Whether the elements found and the edit are as recorded.
fn calls_agree<R: Read>(from: &mut R, recorded: &Recorded) -> io::Result<bool> {
    if all_found(from, recorded)? {
        Ok(edit_agrees(recorded))
    } else {
        Ok(false)
    }
}

// What a case comes to; its elements to find are read here.
fn case_of<R: Read>(from: &mut R, recorded: &Recorded) -> io::Result<Case> {
    let agrees = calls_agree(from, recorded)?;
    let again = rewrite(recorded.batch);
    Ok(Case {
        agrees: agrees && is_due(recorded.refusal, again),
        again,
    })
}

// The next case of the input, by its choices.
fn next_case<R: Read>(from: &mut R) -> io::Result<Case> {
    let Some(edge) = read_word(from)? else {
        return Ok(MISSING);
    };
    let Some(stronger) = read_word(from)? else {
        return Ok(MISSING);
    };
    next_batch(from, Choices { edge, stronger })
}

// The next batch of the input and what it comes to by these choices.
fn next_batch<R: Read>(from: &mut R, choices: Choices) -> io::Result<Case> {
    let mut batch = [0u8; 65536];
    let Some(n) = read_part(from, &mut batch)? else {
        return Ok(MISSING);
    };
    let Some(refusal) = read_word(from)? else {
        return Ok(MISSING);
    };
    let mut expected = [0u8; 65536];
    let Some(m) = read_part(from, &mut expected)? else {
        return Ok(MISSING);
    };
    let recorded = Recorded {
        choices,
        batch: &batch[..n],
        refusal,
        expected: &expected[..m],
    };
    case_of(from, &recorded)
}

// Whether a batch stays whole, since no lists are laid out as it is.
fn is_whole(again: Result<bool, Refusal>) -> bool {
    matches!(
        again,
        Err(Refusal::ShortBatch | Refusal::Size | Refusal::Length)
    )
}

// The cases, counted; each that does not agree is named.
fn replay<R: Read, W: Write>(from: &mut R, to: &mut W, cases: usize) -> io::Result<Counts>
    ensures { IfOk result (λ r. r.missed ≤ cases) }
{
    let mut missed = 0;
    let mut same = 0;
    let mut refused = 0;
    let mut whole = 0;
    for i in 0..cases {
        let case = next_case(from)?;
        if !case.agrees {
            writeln!(to, "differs: {i}")?;
        }
        missed += usize::from(!case.agrees);
        same += usize::from(matches!(case.again, Ok(true)));
        refused += usize::from(matches!(case.again, Err(Refusal::Lists)));
        whole += usize::from(is_whole(case.again));
    }
    Ok(Counts {
        missed,
        same,
        refused,
        whole,
    })
}

// What is said of the cases of the input.
fn tell<R: Read, W: Write>(from: &mut R, to: &mut W) -> io::Result<()> {
    let Some(cases) = read_word(from)? else {
        return Ok(());
    };
    if 65536 < cases {
        return Ok(());
    }
    let counts = replay(from, to, cases)?;
    let agreed = cases - counts.missed;
    let same = counts.same;
    let refused = counts.refused;
    let whole = counts.whole;
    writeln!(to, "{agreed} of {cases} cases agree")?;
    writeln!(
        to,
        "written again byte for byte: {same}, refused 14: {refused}, laid out from no lists: {whole}"
    )
}

fn main(rt: HostRuntime) -> io::Result<()> {
    tell(&mut rt.reader(), &mut io::writer(&rt))
}
