// Edits the loads of 0 to 255, as the edit program does without arguments, and counts those that are accepted.
#![tactic(auto)]

use choices::Choices;
use std::io;

// How many loads are edited.
const LOADS: u32 = 256;

// How long the longest load is, in bytes.
const LONGEST: usize = 8632;

// Whether a batch is accepted.
fn accepts(batch: &[u8]) -> bool {
    let mut result = [0u8; 65536];
    let choices = Choices {
        edge: 0,
        stronger: 0,
    };
    promises::with_work(0, |work| edit_algo::edit(choices, batch, &mut result, work)).is_ok()
}

// Whether the load of a starting number is accepted.
fn accepts_load(start: u32) -> bool {
    let mut batch = [0u8; LONGEST];
    let n = load_program::write_load(start, &mut batch);
    accepts(&batch[..n])
}

// How many of the first loads are accepted.
fn accepted() -> usize {
    (0..LOADS).filter(|start| accepts_load(*start)).count()
}

fn main(rt: HostRuntime) -> io::Result<()> {
    let count = accepted();
    println!(rt; "{count} of {LOADS} loads accepted")
}
