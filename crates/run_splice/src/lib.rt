// One splice of what is held, slice by slice: rows and marks, notes, changed elements.
// The slices that are written stay apart, as run_tree_state says, each with the count of what is in use beside it, as in run_annotations.
// Bounds of one number, the order of two numbers, an index of what is read and room in a lent slice stand as clauses: a value around each would be no plainer
// than its bound. That a run is of whole rows, notes of whole notes, and that marks are rows and held rows are small stands in clauses: the first two are of a part
// of the words, the others of what is written. So do bounds of parts' sizes, as run_annotations says.
#![tactic(auto)]

ghost use Rattle.std.specs.Prelude.{◌≡◌, ◌+◌, ◌-◌, ◌*◌, ◌/◌, ◌%◌, ◌^◌, ◌≤◌, ◌<◌, ◌||◌, leb, ltb, length, get_or};
ghost use Rattle.orders.specs.Lists.{All, pick};
ghost use Rattle.run_annotations.specs.Notes.{notes_of};
ghost use Rattle.run_annotations.specs.Changed.{changed_in, Ruled, count_by};
ghost use Rattle.run_annotations.specs.Places.{part_rows};
ghost use Rattle.run_annotations.specs.Promises.{moved_note};
ghost use Rattle.rows_syntax_node.specs.Rising.{Rising};
ghost use Rattle.run_splice.specs.Promises.{SplicedMarks, NotesLeft, NotesAfter, NotesSpliced, Recorded, ChangedSpliced};

use rows_syntax_node::{ROW_WORDS, shift_rising, splice_rows};
use run_annotations::{NOTE_WORDS, Shift, add_changed, move_changed, move_notes};
use words::{copy_in, word};

// ── Rows and marks ──

// Rust: TreeState::splice, of the tree and its edits. The rows `p` up to `q`, `lost` children of the node at row `parent`, give way to a run of `gain`
// trees, and every mark moves with them: where the Rust replays all edits on a path, a mark says at once where its element stands. The walk over the marks begins at
// the element `target` where that one's mark tells that none before it moves: a hint, of which nothing is asked. The new number of rows.
// The gap stays four numbers, since a splice list has one of its own (splices_step::Gap).
pub fn splice(
    rows: &mut [u32],
    n: usize,
    marks: &mut [u32],
    target: usize,
    parent: usize,
    p: usize,
    q: usize,
    lost: usize,
    run: &[u32],
    gain: usize,
) -> usize
    requires n_in_bounds { (3 * n ≤ length rows.old) × (n < 2 ^ 16) × (parent < p) × (p ≤ q) × (q ≤ n) × All (λ m. m < n) marks.old }
    requires run_len { (length run.now % 3 ≡ 0) × (length run.now < 3 * 2 ^ 16) × (3 * (n - (q - p)) + length run.now ≤ length rows.old) }
    requires risen { Rising marks.old }
    requires bound { (2147483648 ≤ get_or rows.old (3 * parent) 0) × (lost ≤ get_or rows.old (3 * parent + 1) 0) × (get_or rows.old (3 * parent + 1) 0 + gain < 2 ^ 32) }
    ensures { SplicedMarks rows.old n marks.old parent p q lost run.now gain rows.new marks.new result }
{
    let m = run.len() / ROW_WORDS;
    shift_rising(marks, target, p, q, m);
    splice_rows(rows, n, parent, p, q, lost, run, gain)
}

// ── Notes ──

// Whether the row `x` is none of the rows `p` up to `q`.
fn stays(x: usize, p: usize, q: usize) -> bool
    ensures { result ≡ (ltb x p || leb q x) }
{
    x < p || q <= x
}

// How many of some notes are at none of the rows `p` up to `q`.
fn notes_left(notes: &[u32], p: usize, q: usize) -> usize
    requires { (length notes.now < 3 * 2 ^ 16) × (p ≤ q) }
    ensures { NotesLeft notes.now p q result }
{
    (0..notes.len() / NOTE_WORDS)
        .filter(|i| stays(word(notes, NOTE_WORDS * *i), p, q))
        .count()
}

// How many notes there will be when the rows `p` up to `q` have given way and `incoming` more come in, as far as it matters where there may be `most`: if even all
// that are held are not too many, none is counted.
#[tactic(auto, using(crate::proofs::Turns::after_few, crate::proofs::Turns::after_counted))]
pub fn notes_after(notes: &[u32], p: usize, q: usize, incoming: usize, most: usize) -> usize
    requires { (length notes.now < 3 * 2 ^ 16) × (p ≤ q) × (incoming < 2 ^ 32) }
    ensures { NotesAfter notes.now p q incoming most result }
{
    let all = notes.len() / NOTE_WORDS + incoming;
    if all <= most {
        return all;
    }
    notes_left(notes, p, q) + incoming
}

// The first `k` notes moved, and behind them those that come in. The new number of notes.
#[tactic(auto, using(crate::proofs::Turns::notes_spliced))]
pub fn splice_notes(notes: &mut [u32], k: usize, shift: &Shift, incoming: &[u32]) -> usize
    requires k_in_bounds { (3 * k ≤ length notes.old) × All (λ n. n.row < 2 ^ 16) (notes_of k notes.old) }
    requires whole { length incoming.now % 3 ≡ 0 }
    requires room { 3 * (length (pick (moved_note shift.now.from shift.now.to shift.now.count) (notes_of k notes.old)) + length incoming.now / 3) ≤ length notes.old }
    ensures { NotesSpliced notes.old k shift.now.from shift.now.to shift.now.count incoming.now notes.new result }
{
    let r = move_notes(notes, k, shift);
    copy_in(notes, NOTE_WORDS * r, incoming);
    r + incoming.len() / NOTE_WORDS
}

// ── Changed elements ──

// The parts, the first at the row `at`, go behind the first `k` changed elements if the change records, by its rule number. The new number of changed elements.
fn record_changed(
    changed: &mut [u32],
    k: usize,
    at: usize,
    recorded: Option<usize>,
    sizes: &[u32],
) -> usize
    requires room { (k + count_by recorded (length sizes.now) ≤ length changed.old) × Ruled recorded × (at < 2 ^ 16) }
    requires bounded { (length sizes.now < 2 ^ 12) × All (λ x. x < 2 ^ 16) sizes.now × All (λ x. x < 131072) (part_rows at sizes.now) }
    ensures { Recorded changed.old k at recorded sizes.now changed.new result }
{
    let Some(rule) = recorded else {
        return k;
    };
    add_changed(changed, k, at, rule, sizes)
}

// The first `k` changed elements moved, and behind them the parts if the change records. The new number of changed elements.
#[tactic(auto, using(crate::proofs::Turns::changed_spliced))]
pub fn splice_changed(
    changed: &mut [u32],
    k: usize,
    shift: &Shift,
    recorded: Option<usize>,
    sizes: &[u32],
) -> usize
    requires k_in_bounds { All (λ c. c.row < 2 ^ 16) (changed_in k changed.old) }
    requires room { (k + count_by recorded (length sizes.now) ≤ length changed.old) × Ruled recorded }
    requires bounded { (length sizes.now < 2 ^ 12) × All (λ x. x < 2 ^ 16) sizes.now × All (λ x. x < 131072) (part_rows shift.now.from sizes.now) }
    ensures { ChangedSpliced changed.old k shift.now.from shift.now.to shift.now.count recorded sizes.now changed.new result }
{
    let r = move_changed(changed, k, shift);
    record_changed(changed, r, shift.from, recorded, sizes)
}
