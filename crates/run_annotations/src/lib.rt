// The changed elements and the notes that are held, moved through one splice.
// Bounds of one number, the order of two numbers, an index of what is read and room in a lent slice stand as clauses: a value around each would be no plainer
// than its bound. So do bounds of rows that are written, and those of parts' sizes: run_tree_state's `Parts` holds these with what is not known here, and the row
// of the first part comes with a step alone.
// Where a slice is written, the count of what is in use stands beside it: it is lent, and longer than what is in use.
#![tactic(auto)]

ghost use Rattle.std.specs.Prelude.{◌≡◌, ◌+◌, ◌-◌, ◌*◌, ◌/◌, ◌%◌, ◌^◌, ◌≤◌, ◌<◌, length, get_or};
ghost use Rattle.std.proofs.Math.Seq.{paste};
ghost use Rattle.orders.specs.Lists.{All};
ghost use Rattle.run_model.specs.Store.{with_row, put_in};
ghost use Rattle.run_annotations.specs.Notes.{note_words, notes_of, note_at};
ghost use Rattle.run_annotations.specs.Changed.{changed_word, changed_of, changed_in};
ghost use Rattle.run_annotations.specs.Places.{part_rows};
ghost use Rattle.run_annotations.specs.Promises.{RowMoved, RowsMoved, Moved, NoteMoved, NotesMoved, NoteTaken, NotesTaken, RowsAdded};

mod shift;

pub use shift::Shift;
use words::{store, word};

// How many words a note has, and which they are: the row of its element is the first, at `NOTE_WORDS * i`.
pub const NOTE_WORDS: usize = 3;

pub const NUMBER: usize = 1;
// In the queue.
pub const PLACE: usize = 2;

// ── Rows moved ──

// Rust: SyntaxPath::adjust_for_splice, here of a row. Where the row `x` comes to stand; none if it gives way.
#[tactic(auto, using(crate::proofs::Turns::moved_before, crate::proofs::Turns::moved_inside, crate::proofs::Turns::moved_after))]
fn moved(shift: &Shift, x: usize) -> Option<usize>
    requires { x < 2 ^ 32 }
    ensures { Moved shift.now.from shift.now.to shift.now.count x result }
{
    if x < shift.from {
        return Some(x);
    }
    if x < shift.to {
        return None;
    }
    Some(x + shift.count - (shift.to - shift.from))
}

// ── Changed elements: a word each, the row in its lower bits, the rule number above ──

// The number of rows that the lower bits can tell.
const ROWS: usize = 131072;

// The row of a changed element.
#[tactic(auto, unfolding(crate::specs::Changed::changed_of))]
pub fn changed_row(w: usize) -> usize
    ensures { result ≡ (changed_of w).row }
{
    w % ROWS
}

// The rule number of the change that put it in.
#[tactic(auto, unfolding(crate::specs::Changed::changed_of))]
pub fn changed_rule(w: usize) -> usize
    ensures { result ≡ (changed_of w).rule }
{
    w / ROWS
}

// The word of a changed element.
#[tactic(auto, unfolding(crate::specs::Changed::changed_word))]
fn changed_word(row: usize, rule: usize) -> usize
    requires { (row < 131072) × (rule < 32768) }
    ensures { (result ≡ changed_word (put_in rule row)) × (result < 2 ^ 32) }
{
    row + ROWS * rule
}

// The changed element at `i` goes behind the first `r`, moved; one of the rows that give way is left out.
fn move_row(changed: &mut [u32], i: usize, r: usize, shift: &Shift) -> usize
    requires { (r ≤ i) × (i < length changed.old) × ((changed_of (get_or changed.old i 0)).row < 2 ^ 16) }
    ensures { RowMoved changed.old i r shift.now.from shift.now.to shift.now.count changed.new result }
{
    let w = word(changed, i);
    let Some(row) = moved(shift, changed_row(w)) else {
        return r;
    };
    changed[r] = changed_word(row, changed_rule(w)) as u32;
    r + 1
}

// Rust: `changed.retain_mut` in TreeState::splice. The first `k` changed elements moved; what is left comes to the front.
pub fn move_changed(changed: &mut [u32], k: usize, shift: &Shift) -> usize
    requires { (k ≤ length changed.old) × All (λ c. c.row < 2 ^ 16) (changed_in k changed.old) }
    ensures { RowsMoved changed.old k shift.now.from shift.now.to shift.now.count changed.new result }
{
    let mut r = 0;
    for i in 0..k {
        r = move_row(changed, i, r, shift);
    }
    r
}

// Parts of some sizes, put in by this rule, go behind the first `k` changed elements; the first stands at the row `at`.
// A `for`, since a turn writes, and the row that it writes is told by the sizes before it.
pub fn add_changed(changed: &mut [u32], k: usize, at: usize, rule: usize, sizes: &[u32]) -> usize
    requires { (k + length sizes.now ≤ length changed.old) × (rule < 4096) × (at < 2 ^ 16) × (length sizes.now < 2 ^ 12) × All (λ x. x < 2 ^ 16) sizes.now × All (λ x. x < 131072) (part_rows at sizes.now) }
    ensures { RowsAdded changed.old k at rule sizes.now changed.new result }
{
    let mut row = at;
    for (i, size) in sizes.iter().enumerate() {
        changed[k + i] = changed_word(row, rule) as u32;
        row += *size as usize;
    }
    k + sizes.len()
}

// ── Notes: three words each, the row, the number and the place in the queue ──

// The note at `i` is written at place `r`, with another row. A note's words are read where they are used: a value of it would be made for two numbers.
fn keep_note(notes: &mut [u32], i: usize, r: usize, row: usize)
    requires { (3 * i + 3 ≤ length notes.old) × (3 * r + 3 ≤ length notes.old) × (row < 2 ^ 32) }
    ensures { notes.new ≡ paste notes.old (3 * r) (note_words (with_row (note_at notes.old i) row)) 3 }
{
    let number = word(notes, NOTE_WORDS * i + NUMBER);
    let place = word(notes, NOTE_WORDS * i + PLACE);
    store(notes, NOTE_WORDS * r, &[row, number, place]);
}

// The note at `i` goes behind the first `r`, moved; one at the rows that give way is left out.
fn move_note(notes: &mut [u32], i: usize, r: usize, shift: &Shift) -> usize
    requires { (r ≤ i) × (3 * i + 3 ≤ length notes.old) × (get_or notes.old (3 * i) 0 < 2 ^ 16) }
    ensures { NoteMoved notes.old i r shift.now.from shift.now.to shift.now.count notes.new result }
{
    let Some(row) = moved(shift, word(notes, NOTE_WORDS * i)) else {
        return r;
    };
    keep_note(notes, i, r, row);
    r + 1
}

// Rust: `annotations.retain_mut` in TreeState::splice. As `move_changed`, but three words a note: a trait for what is moved would be longer than the two loops.
// The first `k` notes moved; what is left comes to the front.
pub fn move_notes(notes: &mut [u32], k: usize, shift: &Shift) -> usize
    requires { (3 * k ≤ length notes.old) × All (λ n. n.row < 2 ^ 16) (notes_of k notes.old) }
    ensures { NotesMoved notes.old k shift.now.from shift.now.to shift.now.count notes.new result }
{
    let mut r = 0;
    for i in 0..k {
        r = move_note(notes, i, r, shift);
    }
    r
}

// ── The notes that come in with a part ──

// The note at `i` is written to `out` at place `r`, with another row. Beside `keep_note`, since one slice cannot be lent to read and to write at once;
// it reads a note's words as that does.
fn copy_note(notes: &[u32], i: usize, out: &mut [u32], r: usize, row: usize)
    requires { (3 * i + 3 ≤ length notes.now) × (3 * r + 3 ≤ length out.old) × (row < 2 ^ 32) }
    ensures { out.new ≡ paste out.old (3 * r) (note_words (with_row (note_at notes.now i) row)) 3 }
{
    let number = word(notes, NOTE_WORDS * i + NUMBER);
    let place = word(notes, NOTE_WORDS * i + PLACE);
    store(out, NOTE_WORDS * r, &[row, number, place]);
}

// The note at `i`, if it is in the rows `p` up to `q`, goes behind the first `c` of `out`; from `most` on it is only counted.
fn take_note(
    notes: &[u32],
    i: usize,
    p: usize,
    q: usize,
    at: usize,
    out: &mut [u32],
    c: usize,
    most: usize,
) -> usize
    requires { (3 * i + 3 ≤ length notes.now) × (3 * most ≤ length out.old) × (c < 2 ^ 17) × (q < 2 ^ 16) × (at < 2 ^ 16) }
    ensures { NoteTaken notes.now i p q at most out.old c out.new result }
{
    let x = word(notes, NOTE_WORDS * i);
    if x < p {
        return c;
    }
    if q <= x {
        return c;
    }
    if most <= c {
        return c + 1;
    }
    copy_note(notes, i, out, c, at + (x - p));
    c + 1
}

// Rust: `annotations_below` in TreeStore::prepare_element. Of some notes those in the rows `p` up to `q` go behind the first `count` of `out`,
// where `p` comes to stand at the row `at`: how many there are now, or none if they are more than there is room for.
// Its loop counts as that of `move_notes`: one note is told by its place in the words in both, and by chunks each would need laws of its own.
pub fn notes_in(
    notes: &[u32],
    p: usize,
    q: usize,
    at: usize,
    out: &mut [u32],
    count: usize,
    most: usize,
) -> Option<usize>
    requires { (length notes.now < 3 * 2 ^ 16) × (3 * most ≤ length out.old) × (count ≤ most) × (most < 2 ^ 16) × (q < 2 ^ 16) × (at < 2 ^ 16) }
    ensures { NotesTaken notes.now p q at most out.old count out.new result }
{
    let mut c = count;
    for i in 0..notes.len() / NOTE_WORDS {
        c = take_note(notes, i, p, q, at, out, c, most);
    }
    if most < c {
        return None;
    }
    Some(c)
}
