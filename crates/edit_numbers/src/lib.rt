// An outcome as one number, for callers in C and Rust.
// Bounds of one number stand as clauses: a value around each would be no plainer than its bound.
#![tactic(auto)]

ghost use Rattle.std.specs.Prelude.{◌≡◌, ◌≤◌, ◌<◌, pos, neg_ℤ};
ghost use Rattle.refusals.specs.Numbers.{answered};
ghost use Rattle.edit_numbers.specs.Told.{Near, Small, number_of, found_number, share_word};
ghost use Rattle.edit_numbers.specs.ReturnedBatch.{Few, length_number};

use promises::Told;
use refusals::Refusal;

// A refusal's number, with a minus: a number, since that is all it needs of a refusal.
pub fn negative(n: usize) -> i64
    requires { n ≤ 134217728 }
    ensures { result ≡ neg_ℤ (pos n) }
{
    let m = n as i64;
    -m
}

// A length, an element's number or a share's.
fn positive(n: usize) -> i64
    requires { n ≤ 134217728 }
    ensures { result ≡ pos n }
{
    n as i64
}

// For how much a share's quotient counts in its number: its remainder is less.
const QUOTIENT: usize = 65536;

// A share as one number.
fn share_number(quotient: usize, remainder: usize) -> i64
    requires { (quotient ≤ 1000) × (remainder < 65536) }
    ensures { result ≡ pos (share_word quotient remainder) }
{
    positive(QUOTIENT * quotient + remainder)
}

// An element's number, -1000 for none.
#[tactic(auto, unfolding(crate::specs::Told::Near, crate::specs::Told::found_number))]
fn found_number(place: Option<usize>) -> i64
    requires { Near place }
    ensures { result ≡ found_number place }
{
    match place {
        None => -1000,
        Some(n) => positive(n),
    }
}

// The number of an outcome.
#[tactic(auto, unfolding(crate::specs::Told::Small, crate::specs::Told::number_of, refusals::specs::Numbers::answered))]
pub fn number_of(told: Result<Told, Refusal>) -> i64
    requires { Small (answered told) }
    ensures { result ≡ number_of (answered told) }
{
    match told {
        Err(refusal) => negative(refusal.number()),
        Ok(Told::Bytes(n)) => positive(n),
        Ok(Told::Place(place)) => found_number(place),
        Ok(Told::Of(q, m)) => share_number(q, m),
    }
}

// The number of what the writer tells. Beside `number_of`: a length would be made a `Told` only to be taken out of it again, and what is said of it then would be said of all three.
// Nor is it one over a closure with syntax_check's: each would name its own bound of what is told.
pub fn number_written(told: Result<usize, Refusal>) -> i64
    requires { Few (answered told) }
    ensures { result ≡ length_number (answered told) }
{
    match told {
        Err(refusal) => negative(refusal.number()),
        Ok(n) => positive(n),
    }
}
