// The edit program, run on a batch of 8,284 bytes: six trees of 795 elements, 21 calls with every operation among them, 20 notes, 1,440 bytes of text.
// `stdin` is `generate(5, 30980)[1]` of oracle/generator.py, `stdout` what the model prints of it (oracle/README.md), and the Rust prints the same.
#![tactic(auto)]

use std::io;

fn main(rt: HostRuntime) -> io::Result<()> {
    edit_program::run(&rt)
}
