// Line 5 and the element table on document 01's printed case: tree 0 is a node of the tokens "a" and "b", tree 1 a node of the token "c".
#![tactic(auto)]

ghost use Rattle.std.specs.Prelude.{◌≡◌, ◌^◌, ◌≤◌, ◌<◌};

use program_input::print_words;
use read_spelling::Columns;
use std::io;

const KINDS_AND_MEASURES: [u8; 40] = [
    1, 0, 0, 0x80, 2, 0, 0, 0, 3, 0, 0, 0, 1, 0, 0, 0x80, 4, 0, 0, 0, 2, 0, 0, 0, 1, 0, 0, 0, 1, 0,
    0, 0, 1, 0, 0, 0, 1, 0, 0, 0,
];

// Its elements: five kind words, and five measures behind them.
fn columns(bytes: &[u8; 40]) -> Columns<'_>
    ensures { result.count ≡ 5 }
{
    Columns {
        bytes,
        kinds: 0,
        measures: 20,
        count: 5,
    }
}

// Whether the elements spell so many trees with so many bytes of text.
fn print_answer(rt: &impl Print, trees: usize, bytes: usize) -> io::Result<()>
    requires { (trees ≤ 16) × (bytes < 2 ^ 32) }
{
    let columns = columns(&KINDS_AND_MEASURES);
    let mut table = [0u32; 40];
    let mut source = [0u32; 18];
    if read_element_table::fill(&columns, trees, bytes, &mut table, &mut source) {
        println!(rt; "spelled")
    } else {
        println!(rt; "refused")
    }
}

// Two trees with three bytes of text are spelled, one tree is not, nor two with four bytes.
fn answers(rt: &impl Print) -> io::Result<()> {
    print_answer(rt, 2, 3)?;
    print_answer(rt, 1, 3)?;
    print_answer(rt, 2, 4)
}

// The table and the rows, each with one word beyond that stays.
fn tables(rt: &impl Print) -> io::Result<()> {
    let columns = columns(&KINDS_AND_MEASURES);
    let mut table = [7u32; 41];
    let mut source = [7u32; 19];
    if read_element_table::fill(&columns, 2, 3, &mut table, &mut source) {
        print_words(rt, &table)?;
        print_words(rt, &source)?;
    }
    Ok(())
}

fn main(rt: HostRuntime) -> io::Result<()> {
    answers(&rt)?;
    tables(&rt)
}
