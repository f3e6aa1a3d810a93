// The state of a run: where the root of tree 0 stands, and how much is held; lent to each splice step, which rows, marks, notes and changed elements
// go through together. 12 is decided before anything is written.
// These four stay slices here and in the crates above, and what is prepared for a step does there: a step reads some of them while it writes others, so that each
// function would begin by lending the fields of one value by themselves again; no plainer.
// Bounds of one number, the order of two numbers, an index of what is read and room in a lent slice stand as clauses: a value around each would be no plainer
// than its bound.
// `Open`, `RoomFor` and what is told of text bytes stand in clauses, since they are of slices that are written.
#![tactic(auto)]

ghost use Rattle.std.specs.Prelude.{◌≡◌, List, ℕ, ◌+◌, ◌-◌, ◌*◌, ◌/◌, ◌≤◌, ◌<◌, length};
ghost use Rattle.rows_model.specs.Row.{first_rows, bytes as bytes_of};
ghost use Rattle.run_tree_state.specs.Store.{Open, RoomFor, StoreSpliced};
ghost use Rattle.run_tree_state.specs.Sizes.{BytesBetween, StepSize};
ghost use Rattle.run_tree_state.specs.Applied.{Applied};

mod parts;
mod site;

pub use parts::Parts;
use refusals::Refusal;
use rows_syntax_node::{ROW_WORDS, Rows, height, text_bytes};
use run_annotations::{NOTE_WORDS, Shift};
use run_splice::{notes_after, splice_changed, splice_notes};
use run_tree_store::{MOST_NOTES, too_large};
pub use site::Site;

// ── All that is held ──

// Rust: TreeState, one for each tree; here all trees stand in one slice of rows. Where the root of tree 0 stands, and how much is held: rows, their text bytes,
// notes, changed elements.
#[derive(Clone, Copy)]
pub struct TreeState {
    pub root: usize,
    pub rows: usize,
    pub bytes: usize,
    pub notes: usize,
    pub changed: usize,
}

// The splice, by value: the rows of the gap give way to the parts, with the notes that come in; what is held then has `bytes` text bytes.
fn splice_store(
    s: TreeState,
    rows: &mut [u32],
    marks: &mut [u32],
    notes: &mut [u32],
    changed: &mut [u32],
    site: &Site,
    parts: &Parts,
    bytes: usize,
) -> TreeState
    requires fact { Open s rows.old marks.old notes.old changed.old site.now.gap site.now.recorded (length parts.now.sizes.now) }
    requires room { RoomFor s rows.old notes.old site.now.gap parts.now.run.now parts.now.notes.now }
    ensures { StoreSpliced s rows.old marks.old notes.old changed.old site.now.gap site.now.recorded parts.now.run.now parts.now.sizes.now parts.now.notes.now bytes rows.new marks.new notes.new changed.new result }
{
    let gap = site.gap;
    let shift = Shift {
        from: gap.from,
        to: gap.to,
        count: parts.run.len() / ROW_WORDS,
    };
    let gain = parts.sizes.len();
    let r = run_splice::splice(
        rows,
        s.rows,
        marks,
        site.target,
        gap.parent,
        gap.from,
        gap.to,
        gap.lost,
        parts.run,
        gain,
    );
    let k = splice_notes(notes, s.notes, &shift, parts.notes);
    let l = splice_changed(changed, s.changed, &shift, site.recorded, parts.sizes);
    TreeState {
        root: s.root,
        rows: r,
        bytes,
        notes: k,
        changed: l,
    }
}

// ── The state, lent to each splice step ──
// Two thin functions over `&mut TreeState`. Document 01's form, a small record lent to each splice step (DECISIONS 31), asks for both, though a root that is
// replaced keeps its row; the splice by value does the work.

// Rust: TreeState::splice. The state is lent, and the answer of the function by value is stored in it.
fn splice(
    t: &mut TreeState,
    rows: &mut [u32],
    marks: &mut [u32],
    notes: &mut [u32],
    changed: &mut [u32],
    site: &Site,
    parts: &Parts,
    bytes: usize,
)
    requires fact { Open t.old rows.old marks.old notes.old changed.old site.now.gap site.now.recorded (length parts.now.sizes.now) }
    requires room { RoomFor t.old rows.old notes.old site.now.gap parts.now.run.now parts.now.notes.now }
    ensures { StoreSpliced t.old rows.old marks.old notes.old changed.old site.now.gap site.now.recorded parts.now.run.now parts.now.sizes.now parts.now.notes.now bytes rows.new marks.new notes.new changed.new t.new }
{
    *t = splice_store(*t, rows, marks, notes, changed, site, parts, bytes);
}

// Rust: TreeState::replace_root. What comes in stands where the root of tree 0 stood.
#[tactic(auto, using(crate::proofs::Held::store_replaced))]
fn replace_root(
    t: &mut TreeState,
    rows: &mut [u32],
    marks: &mut [u32],
    notes: &mut [u32],
    changed: &mut [u32],
    site: &Site,
    parts: &Parts,
    bytes: usize,
)
    requires fact { Open t.old rows.old marks.old notes.old changed.old site.now.gap site.now.recorded (length parts.now.sizes.now) }
    requires room { RoomFor t.old rows.old notes.old site.now.gap parts.now.run.now parts.now.notes.now }
    requires from_value { site.now.gap.from ≡ t.old.root }
    ensures { StoreSpliced t.old rows.old marks.old notes.old changed.old site.now.gap site.now.recorded parts.now.run.now parts.now.sizes.now parts.now.notes.now bytes rows.new marks.new notes.new changed.new t.new }
{
    *t = splice_store(*t, rows, marks, notes, changed, site, parts, bytes);
    t.root = site.gap.from;
}

// One step of the run: the root of tree 0 is replaced, or another gap gives way.
fn splice_held(
    s: TreeState,
    rows: &mut [u32],
    marks: &mut [u32],
    notes: &mut [u32],
    changed: &mut [u32],
    site: &Site,
    parts: &Parts,
    bytes: usize,
) -> TreeState
    requires fact { Open s rows.old marks.old notes.old changed.old site.now.gap site.now.recorded (length parts.now.sizes.now) }
    requires room { RoomFor s rows.old notes.old site.now.gap parts.now.run.now parts.now.notes.now }
    ensures { StoreSpliced s rows.old marks.old notes.old changed.old site.now.gap site.now.recorded parts.now.run.now parts.now.sizes.now parts.now.notes.now bytes rows.new marks.new notes.new changed.new result }
{
    let mut t = s;
    if site.gap.from == s.root {
        replace_root(&mut t, rows, marks, notes, changed, site, parts, bytes);
        return t;
    }
    splice(&mut t, rows, marks, notes, changed, site, parts, bytes);
    t
}

// ── Refusal 12 ──

// The text bytes of the rows `p` up to `q`.
fn bytes_between(rows: &Rows, p: usize, q: usize) -> usize
    requires { (p ≤ q) × (q ≤ rows.now.count) }
    ensures { BytesBetween rows.now.words.now rows.now.count p q result }
{
    text_bytes(rows.between(p, q))
}

// How many text bytes a step makes what is held, none if that is too large, decided before it writes: the gap gives way to the parts.
fn step_size(rows: &[u32], notes: &[u32], s: TreeState, site: &Site, parts: &Parts) -> Option<usize>
    requires rows_in_bounds { (3 * s.rows ≤ length rows.now) × (s.rows ≤ 4097) × (site.now.gap.from ≤ site.now.gap.to) × (site.now.gap.to ≤ s.rows) }
    requires notes_in_bounds { (3 * s.notes ≤ length notes.now) × (s.notes ≤ 1024) }
    requires bytes_bound { (s.bytes ≤ 16384) × ((text : List ℕ) → s.bytes ≡ bytes_of (first_rows text s.rows rows.now)) }
    ensures { StepSize rows.now notes.now s site.now.gap parts.now.run.now parts.now.notes.now site.now.above result }
{
    let gap = site.gap;
    let held = Rows {
        count: s.rows,
        words: rows,
    };
    let end = NOTE_WORDS * s.notes;
    let lost = bytes_between(&held, gap.from, gap.to);
    let coming = parts.notes.len() / NOTE_WORDS;
    let noted = notes_after(&notes[..end], gap.from, gap.to, coming, MOST_NOTES);
    let bytes = s.bytes + text_bytes(parts.run) - lost;
    let n = s.rows - (gap.to - gap.from) + parts.run.len() / ROW_WORDS;
    let depth = site.above + height(parts.run)?;
    if too_large(n, bytes, noted, depth) {
        return None;
    }
    Some(bytes)
}

// ── One step, where its gap and its parts are known ──

// Rust: TreeState::apply. The gap gives way to what comes in: 12 before anything is written, or what is held then.
pub fn apply(
    rows: &mut [u32],
    marks: &mut [u32],
    notes: &mut [u32],
    changed: &mut [u32],
    s: TreeState,
    site: &Site,
    parts: &Parts,
) -> Result<TreeState, Refusal>
    requires fact { Open s rows.old marks.old notes.old changed.old site.now.gap site.now.recorded (length parts.now.sizes.now) }
    requires room { (12291 ≤ length rows.old) × (3072 ≤ length notes.old) }
    ensures { Applied s rows.old marks.old notes.old changed.old site.now.gap site.now.above site.now.recorded parts.now.run.now parts.now.sizes.now parts.now.notes.now rows.new marks.new notes.new changed.new result }
{
    let bytes = step_size(rows, notes, s, site, parts).ok_or(Refusal::Large)?;
    Ok(splice_held(s, rows, marks, notes, changed, site, parts, bytes))
}
