// Words read, written, moved and spliced at small sizes: what the compiled code gives is what the definitions say. That each comparison comes out true is proved,
// and the program fails where the compiled code finds otherwise.
#![tactic(auto)]

ghost use Rattle.std.specs.Prelude.{◌≡◌, true};

use std::process::ExitCode;

// A word is written and read back, and stands in little-endian order.
fn bytes() -> bool
    ensures { result ≡ true }
{
    let mut b = [7u8; 6];
    words::write_word(&mut b, 1, 0x8040_2010);
    let back = words::read_word(&b, 1) == 0x8040_2010;
    let low = words::read_word(&b, 0) == 0x4020_1007;
    back && low
}

// A longer run comes in place of a shorter one: the tail moves up over itself.
fn splice() -> bool
    ensures { result ≡ true }
{
    let mut s = [1u32, 2, 3, 4, 5, 6];
    words::splice_words(&mut s, 5, 1, 2, &[8, 9]);
    let moved = words::word(&s, 3) == 3;
    let last = words::word(&s, 5) == 5;
    moved && last
}

fn main() -> ExitCode {
    if bytes() && splice() {
        ExitCode::SUCCESS
    } else {
        ExitCode::FAILURE
    }
}
