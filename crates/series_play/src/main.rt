// Plays the recorded series on standard input: of each its first call, then its batches one after another on the memory that the one before left; after each call the bookmarks.
// Input, in words of four bytes and parts (a length and as many bytes): how many series; of each the tree's slice and the bookmarks' slice as parts, how many batches; of each
// batch the edge rule, how many bytes the result slice has, and the batch as a part.
// The memory's two slices travel apart, as `series::follow` is lent them: a struct would be lent again and taken apart at each call.
#![tactic(auto)]

use choices::Choices;
use program_input::{read_part, read_word};
use refusals::Refusal;
use series_check::SLOT_WORDS;
use std::io;
use std::io::{Read, Write};

// The most words of the rows and of the bookmarks.
const WORDS: usize = 16384;

// A path, by its child numbers.
fn print_path<W: Write>(to: &mut W, path: &[u32]) -> io::Result<()> {
    for step in path {
        write!(to, "/{step}")?;
    }
    Ok(())
}

// A bookmark in its slot: its number and its path.
fn print_bookmark<W: Write>(to: &mut W, slot: &[u32]) -> io::Result<()> {
    let [number, steps, path @ ..] = slot else {
        return Ok(());
    };
    write!(to, " {number}=")?;
    match path.get(..*steps as usize) {
        Some(path) => print_path(to, path),
        None => Ok(()),
    }
}

// All bookmarks in a line.
fn print_bookmarks<W: Write>(to: &mut W, bookmarks: &[u32]) -> io::Result<()> {
    let Some((count, slots)) = bookmarks.split_first() else {
        return Ok(());
    };
    for slot in slots.chunks_exact(SLOT_WORDS).take(*count as usize) {
        print_bookmark(to, slot)?;
    }
    writeln!(to)
}

// What a later call answers.
fn print_told<W: Write>(to: &mut W, told: Result<usize, Refusal>) -> io::Result<()> {
    match told {
        Err(refusal) => write!(to, "{refusal}"),
        Ok(n) => write!(to, "bytes {n}"),
    }
}

// A later call.
fn play_batch<W: Write>(
    to: &mut W,
    edge: usize,
    batch: &[u8],
    res: &mut [u8],
    tree: &mut [u8],
    bookmarks: &mut [u32],
) -> io::Result<()> {
    let choices = Choices { edge, stronger: 0 };
    let told = promises::with_work(0, |work| {
        series::follow(choices, batch, tree, bookmarks, res, work)
    });
    print_told(to, told)
}

// The next batch of the input, on the memory; false at the input's end.
fn next_batch<R: Read, W: Write>(
    from: &mut R,
    to: &mut W,
    tree: &mut [u8],
    bookmarks: &mut [u32],
) -> io::Result<bool> {
    let Some(edge) = read_word(from)? else {
        return Ok(false);
    };
    let Some(room) = read_word(from)? else {
        return Ok(false);
    };
    let mut batch = [0u8; 65536];
    let Some(n) = read_part(from, &mut batch)? else {
        return Ok(false);
    };
    if 65536 < room {
        return Ok(false);
    }
    let mut result = [0u8; 65536];
    play_batch(to, edge, &batch[..n], &mut result[..room], tree, bookmarks)?;
    print_bookmarks(to, bookmarks)?;
    Ok(true)
}

// The batches of a series.
fn play_batches<R: Read, W: Write>(
    from: &mut R,
    to: &mut W,
    tree: &mut [u8],
    bookmarks: &mut [u32],
    batches: usize,
) -> io::Result<()> {
    for _ in 0..batches {
        if !next_batch(from, to, tree, bookmarks)? {
            return Ok(());
        }
    }
    Ok(())
}

// The first call, and then the batches.
fn play<R: Read, W: Write>(
    from: &mut R,
    to: &mut W,
    tree: &mut [u8],
    bookmarks: &mut [u32],
    batches: usize,
) -> io::Result<()> {
    let mut rows = [0u32; WORDS];
    match series::start(tree, bookmarks, &mut rows) {
        Ok(()) => write!(to, "start 0")?,
        Err(refusal) => write!(to, "start {}", refusal.number())?,
    }
    print_bookmarks(to, bookmarks)?;
    play_batches(from, to, tree, bookmarks, batches)
}

// The bookmarks' words from their bytes, and then the series.
fn play_words<R: Read, W: Write>(
    from: &mut R,
    to: &mut W,
    tree: &mut [u8],
    bytes: &[u8],
    batches: usize,
) -> io::Result<()> {
    let mut bookmarks = [0u32; WORDS];
    let n = bytes.len() / 4;
    if WORDS < n {
        return Ok(());
    }
    words::read_words(bytes, 0, n, &mut bookmarks, 0);
    play(from, to, tree, &mut bookmarks[..n], batches)
}

// The next series of the input; false at the input's end.
fn next_series<R: Read, W: Write>(from: &mut R, to: &mut W) -> io::Result<bool> {
    let mut tree = [0u8; 65536];
    let Some(n) = read_part(from, &mut tree)? else {
        return Ok(false);
    };
    let mut bytes = [0u8; 65536];
    let Some(m) = read_part(from, &mut bytes)? else {
        return Ok(false);
    };
    let Some(batches) = read_word(from)? else {
        return Ok(false);
    };
    play_words(from, to, &mut tree[..n], &bytes[..m], batches)?;
    Ok(true)
}

// All series of the input.
fn play_all<R: Read, W: Write>(from: &mut R, to: &mut W) -> io::Result<()> {
    let Some(all) = read_word(from)? else {
        return Ok(());
    };
    for _ in 0..all {
        if !next_series(from, to)? {
            return Ok(());
        }
    }
    Ok(())
}

fn main(rt: HostRuntime) -> io::Result<()> {
    play_all(&mut rt.reader(), &mut io::writer(&rt))
}
