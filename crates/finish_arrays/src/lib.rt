// Finishing: text starts, and the result's sizes and arrays written as bytes.
// Bounds of one number, an index of what is read and room in a lent slice stand as clauses: a value around each would be no plainer than its bound.
// What is written goes to a place in the whole result, not to a part that is cut out first: the arrays lie one behind another, and the promise is of all the bytes
// (`paste`).
// That a tree's text can be counted stands in clauses: a tree is a part of the rows, of which `finish_model::Left` knows it.
#![tactic(auto)]

ghost use Rattle.std.specs.Prelude.{◌≡◌, ◌+◌, ◌*◌, ◌/◌, ◌^◌, ◌≤◌, ◌<◌, length, get_or};
ghost use mathlib.Core.List.{flat_map, ◌∷◌, []};
ghost use Rattle.std.proofs.Math.Seq.{paste};
ghost use Rattle.definition.specs.Words.{bytes as bytes_of, written};
ghost use Rattle.rows_model.specs.Row.{own, bytes, row_in, triples};
ghost use Rattle.finish_arrays.specs.Stretches.{stretch_over, Added};
ghost use Rattle.finish_arrays.specs.Scanned.{Scanned};
ghost use Rattle.finish_arrays.specs.Sweep.{Swept};

mod tally;

use rows_syntax_node::{MEASURE, ROW_WORDS, TEXT, child_count, text_length};
pub use tally::Tally;

// What one walk over a tree finds: how many rows it has, and how long its text is, the text that is there (`own`).
#[derive(Clone, Copy)]
pub struct Extent {
    pub rows: usize,
    pub size: usize,
}

// The first tree of `run`: where the text of each of its rows starts is written to `out` (what resolving its path would give); how many rows it has and how long its
// text is, is answered. It ends where no element is owed: a row takes one, a node's row adds its children. So no walk of its own finds its end or its length. A row is
// read by its number, as the readers of rows take it: over `chunks_exact` each would be told that row 0 is meant. So it is in the two loops below, which write at a
// place that moves on.
pub fn scan_tree(run: &[u32], text: &[u8], out: &mut [u32]) -> Extent
    requires { (length run.now ≤ 3 * length out.old) × (length run.now < 3 * 2 ^ 16) × (bytes (triples [] run.now) < 2 ^ 32) }
    ensures { Scanned run.now text.now out.old out.new result }
{
    let rows = run.len() / ROW_WORDS;
    let mut owed: usize = 1;
    let mut sum = 0;
    let mut size = 0;
    for (i, start) in out[..rows].iter_mut().enumerate() {
        if owed == 0 {
            return Extent { rows: i, size };
        }
        *start = sum as u32;
        owed = owed - 1 + child_count(run, i);
        sum += text_length(run, i);
        size += own_length(run, i, text);
    }
    Extent { rows, size }
}

// A row is read: its kind word is written at `kinds`, its measure at `measures`.
fn write_element(b: &mut [u8], kinds: usize, measures: usize, tree: &[u32], row: usize)
    requires { (kinds + 4 ≤ length b.old) × (measures + 4 ≤ length b.old) × (3 * row + 2 < length tree.now) }
    ensures { b.new ≡ paste (paste b.old kinds (bytes_of (get_or tree.now (3 * row) 0)) 4) measures (bytes_of (get_or tree.now (3 * row + 1) 0)) 4 }
{
    let kind = words::word(tree, ROW_WORDS * row);
    let measure = words::word(tree, ROW_WORDS * row + MEASURE);
    words::write_word(b, kinds, kind);
    words::write_word(b, measures, measure);
}

// One sweep over a tree writes its kind words at `at` and its measures behind them. How many times it read an element: that is promised of the sweep, as document 02
// asks (Note 4: each element is read once), and so it is counted: `rows` would be no count of reads.
pub fn write_elements(b: &mut [u8], at: usize, tree: &[u32]) -> usize
    requires { (at + 8 * (length tree.now / 3) ≤ length b.old) × (length tree.now < 3 * 2 ^ 16) }
    ensures { Swept tree.now at b.old b.new result }
{
    let rows = tree.len() / ROW_WORDS;
    let measures = at + 4 * rows;
    let mut reads = 0;
    for row in 0..rows {
        write_element(b, at + 4 * row, measures + 4 * row, tree, row);
        reads += 1;
    }
    reads
}

// The six sizes are written at the front. They come one by one: how many elements there are is counted by the sweep itself, when the others are known.
pub fn write_sizes(
    b: &mut [u8],
    elements: usize,
    text: usize,
    changed: usize,
    notes: usize,
    tally: &Tally,
)
    requires { (24 ≤ length b.old) × (elements < 2 ^ 32) × (text < 2 ^ 32) × (changed < 2 ^ 32) × (notes < 2 ^ 32) }
    ensures { b.new ≡ paste b.old 0 (written (elements ∷ text ∷ changed ∷ notes ∷ tally.now.discarded ∷ tally.now.climbs ∷ [])) 24 }
{
    let six = [
        elements as u32,
        text as u32,
        changed as u32,
        notes as u32,
        tally.discarded as u32,
        tally.climbs as u32,
    ];
    words::write_words(b, 0, &six);
}

// The length of the own text of the element at row `i`: a node has none, nor has a token whose text is not all there.
fn own_length(tree: &[u32], i: usize, text: &[u8]) -> usize
    requires { 3 * i + 2 < length tree.now }
    ensures { result ≡ length (own (row_in text.now tree.now i)) }
{
    let len = text_length(tree, i);
    if len == 0 || text.len() < words::word(tree, ROW_WORDS * i + TEXT) + len {
        return 0;
    }
    len
}

// The length of the text of a tree.
pub fn text_size(tree: &[u32], text: &[u8]) -> usize
    requires { (length tree.now < 3 * 2 ^ 16) × (bytes (triples [] tree.now) < 2 ^ 32) }
    ensures { (result ≡ length (flat_map own (triples text.now tree.now))) × (result < 2 ^ 32) }
{
    (0..tree.len() / ROW_WORDS)
        .map(|i| own_length(tree, i, text))
        .sum()
}

// Text that is still to be copied: `len` bytes of the text of all, from `from` on, to the place `to`. Tokens mostly stand one behind another in that text, and one
// copy of many bytes costs less than many copies of a few.
#[derive(Clone, Copy)]
struct Stretch {
    to: usize,
    from: usize,
    len: usize,
}

// The stretch is copied.
fn copy_stretch(b: &mut [u8], stretch: Stretch, text: &[u8])
    requires { (stretch.from + stretch.len ≤ length text.now) × (stretch.to + stretch.len ≤ length b.old) }
    ensures { b.new ≡ stretch_over text.now stretch b.old }
{
    words::copy_in(
        b,
        stretch.to,
        &text[stretch.from..stretch.from + stretch.len],
    );
}

// The own text of the element at row `i` joins the stretch if it starts where the stretch ends; else the stretch is copied, and another begins with it. Where there is
// none the stretch stays.
fn add_own(b: &mut [u8], stretch: Stretch, tree: &[u32], i: usize, text: &[u8]) -> Stretch
    requires { (stretch.from + stretch.len ≤ length text.now) × (stretch.to + stretch.len ≤ length b.old) × (3 * i + 2 < length tree.now) }
    ensures { Added text.now (own (row_in text.now tree.now i)) b.old stretch b.new result }
{
    let len = own_length(tree, i, text);
    if len == 0 {
        return stretch;
    }
    let start = words::word(tree, ROW_WORDS * i + TEXT);
    if start == stretch.from + stretch.len {
        return Stretch {
            len: stretch.len + len,
            ..stretch
        };
    }
    copy_stretch(b, stretch, text);
    Stretch {
        to: stretch.to + stretch.len,
        from: start,
        len,
    }
}

// The text of a tree is written at `at`.
pub fn write_text(b: &mut [u8], at: usize, tree: &[u32], text: &[u8])
    requires { (at + length (flat_map own (triples text.now tree.now)) ≤ length b.old) × (length tree.now < 3 * 2 ^ 16) }
    ensures { b.new ≡ paste b.old at (flat_map own (triples text.now tree.now)) (length (flat_map own (triples text.now tree.now))) }
{
    let mut stretch = Stretch {
        to: at,
        from: 0,
        len: 0,
    };
    for i in 0..tree.len() / ROW_WORDS {
        stretch = add_own(b, stretch, tree, i, text);
    }
    copy_stretch(b, stretch, text);
}
