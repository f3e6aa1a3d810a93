// A program's choices, read from its arguments.
// Room in a lent slice stands as a clause: a value around each would be no plainer than its bound.
#![tactic(auto)]

ghost use Rattle.std.specs.Prelude.{◌≡◌, ◌≤◌, length};
ghost use Rattle.definition.specs.Choices.{digit, given};
ghost use Rattle.choices.specs.Meant.{meant};
ghost use Rattle.program_choices.specs.Given.{arguments, Given, Gives};

use choices::Choices;
use std::env::{Env, FillError};

// The number of an argument that is not one digit: no choice has it. Not an `Option`: `Choices` holds any number, and what is given stays so until `judge` refuses it.
const NO_CHOICE: usize = 10;

// The digit that an argument is. `char::to_digit` would make a `char` of the byte and a `usize` of what its `Option` holds.
fn digit_of(argument: &[u8]) -> usize
    ensures { result ≡ digit argument.now }
{
    match argument {
        [byte] if byte.is_ascii_digit() => usize::from(*byte - b'0'),
        _ => NO_CHOICE,
    }
}

// The choices that `count` arguments give, the program's name among them, `first` and `second` being those after the name. The count tells whether they are
// there: an empty argument is an argument. Not options of the two: the operating system gives the count, of which each option would be made, to be opened again here.
pub fn given_by(count: usize, first: &[u8], second: &[u8]) -> Choices
    ensures { meant result ≡ given (arguments count first.now second.now) }
{
    if count < 2 {
        return Choices {
            edge: 0,
            stronger: 0,
        };
    }
    if count < 3 {
        return Choices {
            edge: digit_of(first),
            stronger: 0,
        };
    }
    Choices {
        edge: digit_of(first),
        stronger: digit_of(second),
    }
}

// How many arguments there are, how many bytes of the first and of the second were read, and the choices that they give.
#[derive(Clone, Copy)]
pub struct Arguments {
    pub count: usize,
    pub first: usize,
    pub second: usize,
    pub choices: Choices,
}

// How many arguments there are, the program's name among them.
fn count(rt: &impl Env) -> usize {
    (0..usize::MAX)
        .find(|i| matches!(rt.arg(*i, &mut [0u8; 0]), Err(FillError::NotPresent)))
        .unwrap_or(usize::MAX)
}

// Reads the first two arguments into the fronts of `first` and `second`. One that is longer is read as an empty one, so it is no choice either. Promised is that
// the choices are those that the bytes read give; no contract says which bytes, nor what count, the operating system gives.
pub fn read_arguments(rt: &impl Env, first: &mut [u8], second: &mut [u8]) -> Arguments
    requires { (1 ≤ length first.old) × (1 ≤ length second.old) }
    ensures { Given first.new second.new result.count result.first result.second result.choices }
{
    let one = program_input::read_argument(rt, 1, first);
    let two = program_input::read_argument(rt, 2, second);
    let count = count(rt);
    let choices = given_by(count, &first[..one], &second[..two]);
    Arguments {
        count,
        first: one,
        second: two,
        choices,
    }
}

// The program's choices.
pub fn choices(rt: &impl Env) -> Choices
    ensures { Gives result }
{
    let mut first = [0u8; 2];
    let mut second = [0u8; 2];
    let read = read_arguments(rt, &mut first, &mut second);
    read.choices
}
