// Runs the functions on rows: S is root(X(a), b) with one-letter tokens, as the only tree under the root of all.
#![tactic(auto)]

use program_input::print_words;
use rows_path::{Resolved, resolve};
use rows_syntax_node::Rows;
use std::io;
use words::NODE_KIND;

// The least kind of a node.
const NODE: u32 = NODE_KIND as u32;

const S: [u32; 15] = [NODE, 1, 0, NODE + 1, 2, 0, NODE + 5, 1, 0, 2, 1, 0, 3, 1, 1];

// The same with room for one more row.
const ROOM: [u32; 18] = [
    NODE,
    1,
    0,
    NODE + 1,
    2,
    0,
    NODE + 5,
    1,
    0,
    2,
    1,
    0,
    3,
    1,
    1,
    0,
    0,
    0,
];

fn print(rt: &impl Print, n: usize) -> io::Result<()> {
    print!(rt; "{n} ")
}

fn end_line(rt: &impl Print) -> io::Result<()> {
    println!(rt)
}

// An element's row, and where its text starts.
fn print_resolved(rt: &impl Print, r: Option<Resolved>) -> io::Result<()> {
    match r {
        Some(Resolved { row, start }) => print!(rt; "{row} {start} "),
        None => print!(rt; "none "),
    }
}

// The end of X, the second child of the root, the rows of X; in the tree's own rows, where paths lead.
fn places(rt: &impl Print) -> io::Result<()> {
    let words = S;
    let rows = Rows {
        count: 5,
        words: &words,
    };
    print(rt, rows_syntax_node::rows_after(&rows, 2, 1))?;
    print(rt, rows_syntax_node::child_row(&rows, 1, 1))?;
    print_words(rt, rows_syntax_node::subtree(&rows, 2))?;
    let tree = &words[3..15];
    print_resolved(rt, resolve(tree, &[0, 0]))?;
    print_resolved(rt, resolve(tree, &[1]))?;
    print_resolved(rt, resolve(tree, &[2]))?;
    print_resolved(rt, resolve(tree, &[1, 0]))?;
    end_line(rt)
}

// Trees, text and height of what is below the root; how many siblings the rows of X are.
fn measures(rt: &impl Print) -> io::Result<()> {
    let words = S;
    let below = &words[6..15];
    print(rt, rows_syntax_node::trees_in(below))?;
    print(rt, rows_syntax_node::text_bytes(below))?;
    print(rt, rows_syntax_node::height(below).unwrap_or(65))?;
    let rows = Rows {
        count: 5,
        words: &words,
    };
    print(rt, rows_syntax_node::children_between(&rows, 2, 4))?;
    end_line(rt)
}

// c after X.
fn insert(rt: &impl Print) -> io::Result<()> {
    let mut rows = ROOM;
    let n = rows_syntax_node::splice_rows(&mut rows, 5, 1, 4, 4, 0, &[4, 1, 2], 1);
    print(rt, n)?;
    print_words(rt, &rows)?;
    let mut marks = [1u32, 2, 3, 4];
    rows_syntax_node::shift_marks(&mut marks, 4, 4, 1);
    print_words(rt, &marks)
}

// X deleted.
fn delete(rt: &impl Print) -> io::Result<()> {
    let mut rows = ROOM;
    let n = rows_syntax_node::splice_rows(&mut rows, 5, 1, 2, 4, 1, &[], 0);
    print(rt, n)?;
    print_words(rt, &rows)?;
    let mut marks = [1u32, 2, 3, 4];
    rows_syntax_node::shift_marks(&mut marks, 2, 4, 0);
    print_words(rt, &marks)
}

// The whole tree by a node with c.
fn replace_root(rt: &impl Print) -> io::Result<()> {
    let mut rows = ROOM;
    let n = rows_syntax_node::splice_rows(&mut rows, 5, 0, 1, 5, 1, &[NODE + 1, 1, 0, 4, 1, 2], 1);
    print(rt, n)?;
    print_words(rt, &rows)?;
    let mut marks = [1u32, 2, 3, 4];
    rows_syntax_node::shift_marks(&mut marks, 1, 5, 2);
    print_words(rt, &marks)
}

// S behind nothing.
fn append(rt: &impl Print) -> io::Result<()> {
    let mut rows = [0u32; 18];
    let n = rows_syntax_node::append_rows(&mut rows, 0, &S);
    print(rt, n)?;
    print_words(rt, &rows)
}

fn main(rt: HostRuntime) -> io::Result<()> {
    places(&rt)?;
    measures(&rt)?;
    append(&rt)?;
    insert(&rt)?;
    delete(&rt)?;
    replace_root(&rt)
}
