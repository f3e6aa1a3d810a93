// Lists of splices on one old tree, each in all its orders: every word of what they leave is printed once where all orders agree. Then lists that are refused, by
// their numbers.
// The old tree is root(X(a, b), Y(c), d), with one-letter tokens: rows 0 to 6.
// Rows and marks travel apart, as `splices_list::splice_all` is lent them: a struct would be taken apart at each call.
#![tactic(auto)]

use program_input::print_words;
use splices_model::{SPLICE_WORDS, SpliceRefusal};
use std::io;
use words::copy_in;

const OLD: [u32; 21] = [
    0x8000_0001,
    3,
    0,
    0x8000_0002,
    2,
    0,
    10,
    1,
    0,
    11,
    1,
    1,
    0x8000_0003,
    1,
    0,
    12,
    1,
    2,
    13,
    1,
    3,
];

// Prepared rows: e, f, g, Z(h), and a node whose child is missing.
const PREPARED: [u32; 18] = [
    14,
    1,
    4,
    15,
    1,
    5,
    16,
    1,
    6,
    0x8000_0004,
    1,
    0,
    17,
    1,
    7,
    0x8000_0005,
    1,
    0,
];

// Z(h) for X, e and f behind it, c out of Y.
const FOUR: [u32; 24] = [
    9, 0, 0, 1, 3, 2, 2, 0, 1, 1, 0, 1, 7, 0, 1, 1, 1, 1, 4, 4, 0, 1, 0, 0,
];

// All orders of three splices, and of four, written out: a function that makes them would be no plainer, and owe that its places are in bounds.
const ORDERS3: [[u32; 3]; 6] = [
    [0, 1, 2],
    [0, 2, 1],
    [1, 0, 2],
    [1, 2, 0],
    [2, 0, 1],
    [2, 1, 0],
];

const ORDERS4: [[u32; 4]; 24] = [
    [0, 1, 2, 3],
    [0, 1, 3, 2],
    [0, 2, 1, 3],
    [0, 2, 3, 1],
    [0, 3, 1, 2],
    [0, 3, 2, 1],
    [1, 0, 2, 3],
    [1, 0, 3, 2],
    [1, 2, 0, 3],
    [1, 2, 3, 0],
    [1, 3, 0, 2],
    [1, 3, 2, 0],
    [2, 0, 1, 3],
    [2, 0, 3, 1],
    [2, 1, 0, 3],
    [2, 1, 3, 0],
    [2, 3, 0, 1],
    [2, 3, 1, 0],
    [3, 0, 1, 2],
    [3, 0, 2, 1],
    [3, 1, 0, 2],
    [3, 1, 2, 0],
    [3, 2, 0, 1],
    [3, 2, 1, 0],
];

// ── One order ──

// The list in this order.
fn arrange(list: &[u32], order: &[u32], out: &mut [u32]) {
    for (o, place) in order.iter().zip(out.chunks_exact_mut(SPLICE_WORDS)) {
        if let Some(splice) = list.chunks_exact(SPLICE_WORDS).nth(*o as usize) {
            copy_in(place, 0, splice);
        }
    }
}

// The old tree, and the list done on it in this order. More than four splices, or rows too short for the old tree, are refused here, so that it asks nothing.
fn run(
    list: &[u32],
    order: &[u32],
    rows: &mut [u32],
    marks: &mut [u32],
) -> Result<usize, SpliceRefusal> {
    let mut splices = [0u32; 24];
    if 4 < order.len() || rows.len() < 21 {
        return Err(SpliceRefusal::OutOfLimits);
    }
    arrange(list, order, &mut splices);
    copy_in(rows, 0, &OLD);
    let end = SPLICE_WORDS * order.len();
    splices_list::splice_all(rows, marks, &splices[0..end], &PREPARED)
}

// ── All orders ──

// Whether this order leaves these rows and marks.
fn leaves(list: &[u32], order: &[u32], n: usize, rows: &[u32], marks: &[u32]) -> bool {
    let mut other_rows = [9u32; 42];
    let mut other_marks = [0u32; 7];
    let left = run(list, order, &mut other_rows, &mut other_marks).is_ok_and(|m| m == n);
    left && rows == &other_rows[..] && marks == &other_marks[..]
}

// Whether each order leaves these rows and marks.
fn agree<const C: usize>(
    list: &[u32],
    orders: &[[u32; C]],
    n: usize,
    rows: &[u32],
    marks: &[u32],
) -> bool {
    orders
        .iter()
        .all(|order| leaves(list, order, n, rows, marks))
}

fn try_list<const C: usize>(rt: &impl Print, list: &[u32], orders: &[[u32; C]]) -> io::Result<()> {
    let mut rows = [9u32; 42];
    let mut marks = [0u32; 7];
    let Some(first) = orders.first() else {
        return Ok(());
    };
    match run(list, first, &mut rows, &mut marks) {
        Ok(n) => {
            if agree(list, orders, n, &rows, &marks) {
                println!(rt; "{n} ")?;
                print_words(rt, &rows)?;
                return print_words(rt, &marks);
            }
            println!(rt; "orders differ")
        }
        Err(_) => println!(rt; "refused"),
    }
}

// Why the list is refused in this order, where all that is lent stays as it was.
fn refusal(
    list: &[u32],
    order: &[u32],
    rows: &mut [u32],
    marks: &mut [u32],
) -> Option<SpliceRefusal> {
    let mut held = [9u32; 42];
    copy_in(&mut held, 0, &OLD);
    let refusal = run(list, order, rows, marks).err()?;
    if held.starts_with(rows) && [7u32; 7].starts_with(marks) {
        return Some(refusal);
    }
    None
}

// What is printed of it: its number, 0 for none.
fn number(refusal: Option<SpliceRefusal>) -> usize {
    refusal.map_or(0, |refusal| refusal.number())
}

// The list in two orders: both are refused for one reason.
fn try_refused(rt: &impl Print, list: &[u32], one: &[u32], other: &[u32]) -> io::Result<()> {
    let mut rows = [9u32; 42];
    let mut marks = [7u32; 7];
    let first = refusal(list, one, &mut rows, &mut marks);
    if refusal(list, other, &mut rows, &mut marks) == first {
        return println!(rt; "{} ", number(first));
    }
    println!(rt; "orders differ")
}

// Slices that are too short for the list.
fn try_slices(rt: &impl Print) -> io::Result<()> {
    let list = [1, 0, 1, 1, 0, 1];
    // Room for no row more; six rows of the old tree, which are no tree.
    let mut rows = [9u32; 21];
    let of_rows = refusal(&list, &[0], &mut rows, &mut [7u32; 7]);
    print!(rt; "{} ", number(of_rows))?;
    let mut more_rows = [9u32; 42];
    let of_marks = refusal(&list, &[0], &mut more_rows, &mut [7u32; 6]);
    print!(rt; "{} ", number(of_marks))?;
    // Seven words for a splice.
    let of_words = splices_list::splice_all(
        &mut more_rows,
        &mut [7u32; 7],
        &[1, 0, 1, 1, 0, 1, 2],
        &PREPARED,
    )
    .err();
    println!(rt; "{} ", number(of_words))
}

fn accepted(rt: &impl Print) -> io::Result<()> {
    // e for a in X, Z(h) behind d in the root, c out of Y.
    try_list(
        rt,
        &[1, 1, 0, 1, 0, 1, 2, 0, 3, 3, 3, 2, 3, 4, 0, 1, 0, 0],
        &ORDERS3,
    )?;
    // e and f before Y, g for Y: the higher number is left.
    try_list(
        rt,
        &[1, 0, 1, 1, 0, 1, 2, 0, 1, 1, 1, 1, 3, 0, 1, 2, 2, 1],
        &ORDERS3,
    )?;
    try_list(rt, &FOUR, &ORDERS4)
}

fn refusals(rt: &impl Print) -> io::Result<()> {
    // Runs that overlap, an insertion inside a run, a parent that another deletes, one number twice.
    try_refused(rt, &[1, 0, 0, 2, 0, 1, 2, 0, 1, 3, 0, 0], &[0, 1], &[1, 0])?;
    try_refused(rt, &[1, 0, 0, 2, 0, 1, 2, 0, 1, 1, 1, 1], &[0, 1], &[1, 0])?;
    try_refused(rt, &[1, 0, 0, 1, 0, 1, 2, 1, 0, 1, 1, 1], &[0, 1], &[1, 0])?;
    try_refused(rt, &[1, 1, 0, 1, 0, 1, 1, 4, 0, 1, 1, 1], &[0, 1], &[1, 0])?;
    // A token as parent, no row, a run past the children, a run reversed.
    try_refused(rt, &[1, 2, 0, 0, 0, 1], &[0], &[0])?;
    try_refused(rt, &[1, 7, 0, 0, 0, 1], &[0], &[0])?;
    try_refused(rt, &[1, 0, 3, 4, 0, 1], &[0], &[0])?;
    try_refused(rt, &[1, 0, 2, 1, 0, 1], &[0], &[0])?;
    // Rows that spell no trees, rows past the end of the slice, more rows than there is room for.
    try_refused(rt, &[1, 0, 1, 1, 5, 1], &[0], &[0])?;
    try_refused(rt, &[1, 0, 1, 1, 5, 2], &[0], &[0])?;
    try_refused(rt, &[1, 0, 1, 1, 0, 8], &[0], &[0])
}

fn main(rt: HostRuntime) -> io::Result<()> {
    accepted(&rt)?;
    refusals(&rt)?;
    try_slices(&rt)
}
