// Rows of three words in preorder: the kind word, the measure, and where a token's text starts in the text of all.
// Bounds of one number, the order of two numbers, an index of what is read and room in a lent slice stand as clauses: a value around each would be no plainer than its bound.
// A run of rows is a part of the rows, as document 01 has it: that it is of whole rows stands in clauses.
#![tactic(auto)]

ghost use Rattle.std.specs.Prelude.{◌≡◌, ◌+◌, ◌-◌, ◌*◌, ◌%◌, ◌^◌, ◌≤◌, ◌<◌, length, get_or};
ghost use Rattle.orders.specs.Lists.{All};
ghost use Rattle.definition_laws.specs.Basics.{up_from};
ghost use Rattle.rows_syntax_node.specs.Promises.{Counted, Measured, After, ChildAt, TreesIn, TreesBetween, Bytes, Height, Part, Appended, Spliced, Moved, Shifted, FirstMoved};
ghost use Rattle.rows_syntax_node.specs.Rising.{Rising};

mod rows;

pub use rows::Rows;
use words::{NODE_KIND, copy_in, splice_words, word, word_or_zero};

// How many words a row has, and which they are: the kind word is the first, at `ROW_WORDS * i`.
pub const ROW_WORDS: usize = 3;

pub const KIND: usize = 0;
// The number of a node's children, the length of a token's text.
pub const MEASURE: usize = 1;
// Where a token's text starts in the text of all.
pub const TEXT: usize = 2;

// ── One row: by its slice, since each asks for one row, which is less than `Rows` has. Beside read_spelling's `children_of` and `length_of`, which need both numbers read ──

// The number of children of the element at row `i`: a token has none.
#[tactic(auto, using(crate::proofs::Turns::count_token, crate::proofs::Turns::count_node))]
pub fn child_count(rows: &[u32], i: usize) -> usize
    requires { 3 * i + 2 < length rows.now }
    ensures { Counted rows.now i result }
{
    let k = word(rows, ROW_WORDS * i);
    if k < NODE_KIND {
        return 0;
    }
    word(rows, ROW_WORDS * i + MEASURE)
}

// The length of the own text of the element at row `i`: a node has none.
#[tactic(auto, using(crate::proofs::Turns::length_token, crate::proofs::Turns::length_node))]
pub fn text_length(rows: &[u32], i: usize) -> usize
    requires { 3 * i + 2 < length rows.now }
    ensures { Measured rows.now i result }
{
    let k = word(rows, ROW_WORDS * i);
    if k < NODE_KIND {
        return word(rows, ROW_WORDS * i + MEASURE);
    }
    0
}

// ── Places ──

// The row after the next `owed` trees from row `at` on: each row is one element owed less, and a node's row owes its children.
// A `for`, since it carries what is owed and leaves when nothing is.
pub fn rows_after(rows: &Rows, at: usize, owed: usize) -> usize
    requires { (at ≤ rows.now.count) × (owed < 2 ^ 32) }
    ensures { After rows.now.words.now rows.now.count at owed result }
{
    let mut o = owed;
    for i in at..rows.count {
        if o == 0 {
            return i;
        }
        o = o - 1 + child_count(rows.words, i);
    }
    rows.count
}

// The row of child `i` of the node at row `parent`.
pub fn child_row(rows: &Rows, parent: usize, i: usize) -> usize
    requires { (parent < rows.now.count) × (i < 2 ^ 32) }
    ensures { ChildAt rows.now.words.now rows.now.count parent i result }
{
    rows_after(rows, parent + 1, i)
}

// The element at row `at` with all that is below it: its preorder run.
#[tactic(auto, using(crate::proofs::Turns::part_made))]
pub fn subtree<'a>(rows: &Rows<'a>, at: usize) -> &'a [u32]
    requires { at ≤ rows.now.count }
    ensures { Part rows.now.words.now rows.now.count at result.now }
{
    rows.between(at, rows_after(rows, at, 1))
}

// ── A run of rows, as a slice of its own ──

// The number of trees of a run. A `for`, since what a row adds is told by what is owed before it.
pub fn trees_in(run: &[u32]) -> usize
    requires { length run.now < 3 * 2 ^ 16 }
    ensures { TreesIn run.now result }
{
    let mut trees = 0;
    let mut o: usize = 0;
    for i in 0..run.len() / ROW_WORDS {
        if o == 0 {
            trees += 1;
        }
        o = o.saturating_sub(1) + child_count(run, i);
    }
    trees
}

// How many siblings the rows `p` up to `q` are.
pub fn children_between(rows: &Rows, p: usize, q: usize) -> usize
    requires { (p ≤ q) × (q ≤ rows.now.count) }
    ensures { TreesBetween rows.now.words.now rows.now.count p q result }
{
    trees_in(rows.between(p, q))
}

// The length of the text of a run.
pub fn text_bytes(run: &[u32]) -> usize
    requires { length run.now < 3 * 2 ^ 16 }
    ensures { Bytes run.now result }
{
    (0..run.len() / ROW_WORDS)
        .map(|i| text_length(run, i))
        .sum()
}

// The greatest depth in a run, none where it is more than 64.
// Its `while` walks with a stack: a turn either takes a row or closes a node, so a `for` over rows would need a second loop inside; no plainer.
pub fn height(run: &[u32]) -> Option<usize>
    requires { length run.now < 3 * 2 ^ 16 }
    ensures { Height run.now result }
{
    // What each open node still owes, and below them more than there are rows.
    let mut left = [0usize; 65];
    left[0] = run.len();
    let mut depth = 0;
    let mut most: usize = 0;
    let mut i = 0;
    while ROW_WORDS * i + TEXT < run.len() {
        let x = left[depth];
        if x == 0 {
            depth -= 1;
        } else {
            if 64 <= depth {
                return None;
            }
            left[depth] = x - 1;
            depth += 1;
            left[depth] = child_count(run, i);
            most = most.max(depth);
            i += 1;
        }
    }
    Some(most)
}

// ── Rows written: with their count, since the lent slice has room for more (fixed memory) ──

// A run written behind the first `n` rows. The new number of rows.
pub fn append_rows(rows: &mut [u32], n: usize, run: &[u32]) -> usize
    requires { (3 * n + length run.now ≤ length rows.old) × (n < 2 ^ 16) × (length run.now % 3 ≡ 0) }
    ensures { Appended rows.old n run.now rows.new result }
{
    copy_in(rows, ROW_WORDS * n, run);
    n + run.len() / ROW_WORDS
}

// The rows `p` up to `q`, `removed` children of the node at row `parent`, give way to a run of `gain` trees. The new number of rows.
pub fn splice_rows(
    rows: &mut [u32],
    n: usize,
    parent: usize,
    p: usize,
    q: usize,
    removed: usize,
    run: &[u32],
    gain: usize,
) -> usize
    requires n_in_bounds { (3 * n ≤ length rows.old) × (n < 2 ^ 16) × (parent < p) × (p ≤ q) × (q ≤ n) }
    requires run_len { (length run.now % 3 ≡ 0) × (3 * (n - (q - p)) + length run.now ≤ length rows.old) }
    requires bound { (2147483648 ≤ get_or rows.old (3 * parent) 0) × (removed ≤ get_or rows.old (3 * parent + 1) 0) × (get_or rows.old (3 * parent + 1) 0 + gain < 2 ^ 32) }
    ensures { Spliced rows.old n parent p q removed run.now gain rows.new result }
{
    let m = word(rows, ROW_WORDS * parent + MEASURE);
    rows[ROW_WORDS * parent + MEASURE] = (m + gain - removed) as u32;
    splice_words(rows, ROW_WORDS * n, ROW_WORDS * p, ROW_WORDS * q, run);
    n - (q - p) + run.len() / ROW_WORDS
}

// ── Marks ──

// Element `e` stands at row `first` + `e`.
pub fn number_from(marks: &mut [u32], first: usize)
    requires { (length marks.old < 2 ^ 16) × (first < 2 ^ 16) }
    ensures { marks.new ≡ up_from first (length marks.old) }
{
    for (i, mark) in marks.iter_mut().enumerate() {
        *mark = (first + i) as u32;
    }
}

// What becomes of a mark where the rows `p` up to `q` give way to `m` others. A mark is a word, 0 for an element that is gone: it is stored so.
#[tactic(auto, using(crate::proofs::Turns::mark_before, crate::proofs::Turns::mark_inside, crate::proofs::Turns::mark_after))]
fn moved_word(x: u32, p: u32, q: u32, m: u32) -> u32
    requires { (p ≤ q) × (q < 2 ^ 16) × (m < 2 ^ 16) × (x < 2 ^ 16) }
    ensures { Moved p q m x result }
{
    if x < p {
        return x;
    }
    if x < q {
        return 0;
    }
    x + m - (q - p)
}

// The same for every mark. All is in words, so that the loop becomes vector code; no value as run_annotations' `Shift`, since the functions on marks alone would take it here.
pub fn shift_marks(marks: &mut [u32], p: usize, q: usize, m: usize)
    requires { (p ≤ q) × (q < 2 ^ 16) × (m < 2 ^ 16) × All (λ x. x < 2 ^ 16) marks.old }
    ensures { Shifted marks.old p q m marks.new }
{
    let from = p as u32;
    let to = q as u32;
    let count = m as u32;
    for mark in marks.iter_mut() {
        *mark = moved_word(*mark, from, to, count);
    }
}

// ── Marks that rise with the element's number, but for those that are 0: so do a run's, as elements keep their order ──

// The element from which on marks may move where rows from `p` on give way: `target`, if its mark is among the rows up to `p`, since marks before it are less; else the
// first. A target past the end has no mark.
#[tactic(auto, using(crate::proofs::Turns::first_none, crate::proofs::Turns::first_found))]
fn first_moved(marks: &[u32], target: usize, p: usize) -> usize
    requires { (0 < p) × Rising marks.now }
    ensures { FirstMoved marks.now p result }
{
    let mark = word_or_zero(marks, target);
    if mark == 0 {
        return 0;
    }
    if p < mark {
        return 0;
    }
    target
}

// Where as many rows come in as go, only the marks of elements that are gone change: the first mark from `q` on ends the walk.
fn forget_marks(marks: &mut [u32], p: usize, q: usize)
    requires { (0 < p) × (p ≤ q) × (q < 2 ^ 16) × All (λ x. x < 2 ^ 16) marks.old × Rising marks.old }
    ensures { Shifted marks.old p q (q - p) marks.new }
{
    let from = p as u32;
    let end = q as u32;
    for mark in marks.iter_mut() {
        if end <= *mark {
            return;
        }
        *mark = moved_word(*mark, from, end, end - from);
    }
}

// The same as `shift_marks`, on marks that rise: the walk begins at the element `target` if it can. That is a hint, and any number will do.
pub fn shift_rising(marks: &mut [u32], target: usize, p: usize, q: usize, m: usize)
    requires { (0 < p) × (p ≤ q) × (q < 2 ^ 16) × (m < 2 ^ 16) × All (λ x. x < 2 ^ 16) marks.old × Rising marks.old }
    ensures shifted { Shifted marks.old p q m marks.new }
    ensures risen { Rising marks.new }
{
    let first = first_moved(marks, target, p);
    let moved = &mut marks[first..];
    if m == q - p {
        forget_marks(moved, p, q);
    } else {
        shift_marks(moved, p, q, m);
    }
}
