// The result from what the run leaves: changed elements and notes in order, refusal 13, and the bytes.
// Bounds of one number and room in a lent slice stand as clauses: a value around each would be no plainer than its bound.
// The length of a tree's text is handed on beside its rows, once it is counted: that it is this length stands in clauses.
// Each `write_*` is told the place in the whole result where its arrays begin, and not their part of it: the promise is of all the bytes, one `paste` over another.
#![tactic(auto)]

ghost use Rattle.std.specs.Prelude.{◌≡◌, ℕ, ◌+◌, ◌*◌, ◌/◌, ◌^◌, ◌≤◌, ◌<◌, length, get_or};
ghost use mathlib.Core.List.{List, flat_map, ◌∷◌, []};
ghost use Rattle.std.proofs.Math.Seq.{paste};
ghost use Rattle.definition.specs.Words.{written};
ghost use Rattle.rows_model.specs.Row.{own, triples};
ghost use Rattle.run_annotations.specs.Changed.{changed_in};
ghost use Rattle.run_annotations.specs.Notes.{notes_of};
ghost use Rattle.run_tree_store.specs.Stored.{stored};
ghost use Rattle.finish_model.specs.Finished.{result_of};
ghost use Rattle.finish_result.specs.Answered.{Answered};
ghost use Rattle.finish_result.specs.Arrays.{note_column, element_column, rule_column, Front, arrays_over, rest_over, told_result};
ghost use Rattle.finish_result.specs.InTree.{result_in, changed_by, notes_by};
ghost use Rattle.finish_result.specs.Weighed.{Weighs};

use finish_arrays::{Tally, scan_tree, text_size, write_elements, write_sizes, write_text};
use finish_model::{Left, ROOT, first_tree};
use finish_sort::{count_changed, count_notes, sort_changed, sort_notes};
use refusals::Refusal;
use rows_syntax_node::ROW_WORDS;
use run_annotations::{NOTE_WORDS, NUMBER, changed_row, changed_rule};
use words::{word, write_word};

// ── The arrays ──

// `n` words are written at `at`, one of each item.
fn write_column<F: Fn(usize) -> usize>(b: &mut [u8], at: usize, n: usize, item: F)
    requires room { at + 4 * n ≤ length b.old }
    requires callable { (i : ℕ) → i < n → F.pre item i }
    ensures { (xs : List ℕ) → length xs ≡ n → ((i x : ℕ) → i < n → F.post item i x → x ≡ get_or xs i 0) → b.new ≡ paste b.old at (written xs) (4 * n) }
{
    for i in 0..n {
        write_word(b, at + 4 * i, item(i));
    }
}

// The kinds and the measures are written in one sweep, and then the sizes, the first of which is how many times it read an element. That number.
fn write_front(
    b: &mut [u8],
    tree: &[u32],
    size: usize,
    changed: usize,
    notes: usize,
    tally: &Tally,
) -> usize
    requires tree_in_bounds { (24 + 8 * (length tree.now / 3) ≤ length b.old) × (length tree.now < 3 * 2 ^ 16) }
    requires size_bound { (size < 2 ^ 32) × (changed < 2 ^ 32) × (notes < 2 ^ 32) }
    ensures { Front tree.now (size ∷ changed ∷ notes ∷ tally.now.discarded ∷ tally.now.climbs ∷ []) b.old b.new result }
{
    let elements = write_elements(b, 24, tree);
    write_sizes(b, elements, size, changed, notes, tally);
    elements
}

// Four arrays are written from `at` on: the numbers and the rule numbers of the changed elements, the numbers and the elements of the notes.
fn write_arrays(b: &mut [u8], at: usize, changed: &[u32], notes: &[u32])
    requires { at + 8 * length changed.now + 8 * (length notes.now / 3) ≤ length b.old }
    ensures { b.new ≡ arrays_over at (element_column changed.now) (rule_column changed.now) (length changed.now) (note_column 1 notes.now) (note_column 0 notes.now) (length notes.now / 3) b.old }
{
    let c = changed.len();
    let m = notes.len() / NOTE_WORDS;
    write_column(b, at, c, |i| changed_row(word(changed, i)));
    write_column(b, at + 4 * c, c, |i| changed_rule(word(changed, i)));
    write_column(b, at + 8 * c, m, |i| word(notes, NOTE_WORDS * i + NUMBER));
    write_column(b, at + 8 * c + 4 * m, m, |i| word(notes, NOTE_WORDS * i));
}

// The changed elements and their rule numbers, the numbers and elements of the notes and the text are written from `at` on.
fn write_rest(b: &mut [u8], at: usize, tree: &[u32], text: &[u8], changed: &[u32], notes: &[u32])
    requires { (at + 8 * length changed.now + 8 * (length notes.now / 3) + length (flat_map own (triples text.now tree.now)) ≤ length b.old) × (length tree.now < 3 * 2 ^ 16) }
    ensures { b.new ≡ rest_over at changed.now notes.now (flat_map own (triples text.now tree.now)) b.old }
{
    let m = notes.len() / NOTE_WORDS;
    write_arrays(b, at, changed, notes);
    write_text(b, at + 8 * changed.len() + 8 * m, tree, text);
}

// How many bytes a result has, from how many elements, text bytes, changed elements and notes it has.
fn bytes_of(n: usize, size: usize, changed: usize, notes: usize) -> usize
    requires { (n < 2 ^ 32) × (size < 2 ^ 32) × (changed < 2 ^ 32) × (notes < 2 ^ 32) }
    ensures { result ≡ 24 + 8 * n + 8 * changed + 8 * notes + size }
{
    24 + 8 * n + 8 * changed + 8 * notes + size
}

// The result as bytes, from the rows of the new tree, the length of its text, its changed elements and its notes in order; their length. Where the buffer is too short
// nothing is written.
fn write_result(
    tree: &[u32],
    text: &[u8],
    size: usize,
    changed: &[u32],
    notes: &[u32],
    tally: &Tally,
    res: &mut [u8],
) -> Result<usize, Refusal>
    requires few { (length tree.now < 3 * 2 ^ 16) × (length changed.now < 2 ^ 32) × (length notes.now < 2 ^ 32) }
    requires size_value { (size ≡ length (flat_map own (triples text.now tree.now))) × (size < 2 ^ 32) }
    ensures { Answered res.old (told_result tally.now.discarded tally.now.climbs tree.now text.now changed.now notes.now) res.new result }
{
    let n = tree.len() / ROW_WORDS;
    let m = notes.len() / NOTE_WORDS;
    let total = bytes_of(n, size, changed.len(), m);
    if res.len() < total {
        return Err(Refusal::ShortResult);
    }
    let elements = write_front(res, tree, size, changed.len(), m, tally);
    write_rest(res, 24 + 8 * elements, tree, text, changed, notes);
    Ok(total)
}

// ── From what the run leaves ──
// Notes and changed elements are no part of `Left`: finishing sorts them in place while the rows are read. Nor is the text: it is the batch's.

// The changed elements and the notes of the new tree in order, then the result as bytes; `starts` says where each element's text starts, `size` how long the text is.
fn finish_tree(
    tree: &[u32],
    starts: &[u32],
    size: usize,
    notes: &mut [u32],
    changed: &mut [u32],
    text: &[u8],
    tally: &Tally,
    res: &mut [u8],
) -> Result<usize, Refusal>
    requires few { (length tree.now < 3 * 2 ^ 16) × (length notes.old < 3 * 2 ^ 16) × (length changed.old < 2 ^ 16) }
    requires size_value { (size ≡ length (flat_map own (triples text.now tree.now))) × (size < 2 ^ 32) }
    ensures { Answered res.old (result_in tally.now.discarded tally.now.climbs (triples text.now tree.now) (changed_by starts.now (length tree.now / 3) (changed_in (length changed.old) changed.old)) (notes_by starts.now (length tree.now / 3) (notes_of (length notes.old / 3) notes.old))) res.new result }
{
    let end = tree.len() / ROW_WORDS + 1;
    let from = sort_changed(changed, end, starts);
    let first = NOTE_WORDS * sort_notes(notes, end, starts);
    write_result(
        tree,
        text,
        size,
        &changed[from..],
        &notes[first..],
        tally,
        res,
    )
}

// The result as bytes, from what the run leaves: the rows of all trees, just its notes and its changed elements by their rows; their length, or 13.
pub fn finish(
    left: &Left,
    notes: &mut [u32],
    changed: &mut [u32],
    starts: &mut [u32],
    text: &[u8],
    tally: &Tally,
    res: &mut [u8],
) -> Result<usize, Refusal>
    requires rows_in_bounds { left.now.rows.count ≤ length starts.old + 1 }
    requires few { (length notes.old < 3 * 2 ^ 16) × (length changed.old < 2 ^ 16) }
    ensures { (marks : List ℕ) → Answered res.old (result_of tally.now.discarded tally.now.climbs (stored text.now left.now.rows.count left.now.rows.words.now marks (notes_of (length notes.old / 3) notes.old) (changed_in (length changed.old) changed.old))) res.new result }
{
    // Where tree 0 ends is found on the walk: over `first_tree` it would be looked for first, a walk of its own.
    let trees = left.rows.between(ROOT, left.rows.count);
    let extent = scan_tree(trees, text, starts);
    finish_tree(
        &trees[..ROW_WORDS * extent.rows],
        &starts[..extent.rows],
        extent.size,
        notes,
        changed,
        text,
        tally,
        res,
    )
}

// How many bytes the result has, from what the run leaves: told before anything is sorted or written.
pub fn result_size(left: &Left, notes: &[u32], changed: &[u32], text: &[u8]) -> usize
    requires { (length notes.now < 3 * 2 ^ 16) × (length changed.now < 2 ^ 16) }
    ensures { Weighs text.now left.now.rows.count left.now.rows.words.now (notes_of (length notes.now / 3) notes.now) (changed_in (length changed.now) changed.now) result }
{
    let tree = first_tree(&left.rows);
    let elements = tree.len() / ROW_WORDS;
    let size = text_size(tree, text);
    let changes = count_changed(changed, elements + 1);
    let annotations = count_notes(notes, elements + 1);
    bytes_of(elements, size, changes, annotations)
}
