// What a lent memory is held to: lines 3, 4, 5, 20 and 21 (document 02, Note 14). How the memory lies in its two slices: series_laws/specs/Lent.antt.
// Bounds of one number, an index of what is read and room in a lent slice stand as clauses: a value around each would be no plainer than its bound.
#![tactic(auto)]

ghost use Rattle.std.specs.Prelude.{◌≡◌, not, ◌+◌, ◌*◌, ◌^◌, ◌≤◌, ◌<◌, length, get_or, take, drop};
ghost use Rattle.definition.specs.Basics.{among};
ghost use Rattle.std.proofs.Math.Seq.{paste};
ghost use Rattle.read_spelling.specs.Spelling.{elements_at};
ghost use Rattle.read_element_table.specs.Filling.{rows_from};
ghost use Rattle.check_laws.specs.Check.{no_repeat};
ghost use Rattle.series_laws.specs.Lent.{lent};
ghost use Rattle.series_check.specs.Slots.{slot_at, numbers_from};
ghost use Rattle.series_check.specs.Leading.{Leads, AllLead};
ghost use Rattle.series_check.specs.Rows.{text_sum};
ghost use Rattle.refusals.specs.Numbers.{answered};
ghost use Rattle.series_check.specs.Judged.{wrong_in, judged, Remains};

mod bookmarks;

use bookmarks::Bookmarks;
use read_spelling::Columns;
use refusals::Refusal;
use rows_children::{Children, fill_children, row_at};
use rows_syntax_node::{ROW_WORDS, Rows};
use words::{read_word, word};

// The tree's two sizes in bytes: elements, text bytes.
pub const SIZES: usize = 8;
// A bookmark's words: its number, how many child numbers its path has, those.
pub const SLOT_WORDS: usize = 65;

pub const PATH_LENGTH: usize = 1;

pub const PATH: usize = 2;

pub const LONGEST_PATH: usize = 63;

pub const MOST_BOOKMARKS: usize = 256;

// Where the slot of bookmark `i` begins: behind the count.
pub fn slot_at(i: usize) -> usize
    requires { i < 2 ^ 32 }
    ensures { result ≡ 1 + 65 * i }
{
    1 + SLOT_WORDS * i
}

// ── 20: numbers ──

// The number of bookmark `i`. It takes a slice, since of the count it asks only what `i` needs.
#[tactic(auto, using(crate::specs::Slots::number_told))]
pub fn number_at(bookmarks: &[u32], i: usize) -> usize
    requires { (1 + 65 * (i + 1) ≤ length bookmarks.now) × (i < 2 ^ 32) }
    ensures { (result ≡ get_or (slot_at bookmarks.now i) 0 0) × (result < 2 ^ 32) }
{
    word(bookmarks, slot_at(i))
}

// The numbers side by side, as many as there are bookmarks: compared in their slots, each would be read from far away.
fn gather_numbers(bookmarks: &Bookmarks, numbers: &mut [u32])
    requires { length numbers.old ≡ bookmarks.now.count }
    ensures { numbers.new ≡ numbers_from bookmarks.now.words.now bookmarks.now.count 0 }
{
    for (i, number) in numbers.iter_mut().enumerate() {
        *number = number_at(bookmarks.words, i) as u32;
    }
}

// Whether the number at `i` stands again behind it.
fn stands_again(numbers: &[u32], i: usize) -> bool
    requires { i < length numbers.now }
    ensures { result ≡ among (drop (i + 1) numbers.now) (get_or numbers.now i 0) }
{
    numbers[i + 1..].contains(&numbers[i])
}

// Whether a number is given twice.
fn repeats(numbers: &[u32]) -> bool
    ensures { result ≡ not (no_repeat numbers.now) }
{
    (0..numbers.len()).any(|i| stands_again(numbers, i))
}

// Whether there are too many bookmarks, or a number is given twice.
fn wrong_numbers(bookmarks: &Bookmarks) -> bool
    ensures { result ≡ wrong_in bookmarks.now.words.now bookmarks.now.count }
{
    let k = bookmarks.count;
    if MOST_BOOKMARKS < k {
        return true;
    }
    let mut numbers = [0u32; MOST_BOOKMARKS];
    let gathered = &mut numbers[..k];
    gather_numbers(bookmarks, gathered);
    repeats(gathered)
}

// ── 21: paths ──

// Whether the path of bookmark `i` finds an element of the tree whose rows these are.
fn leads(children: &Children, bookmarks: &Bookmarks, i: usize) -> bool
    requires { i < bookmarks.now.count }
    ensures { Leads (take (3 * children.now.rows.count) children.now.rows.words.now) (slot_at bookmarks.now.words.now i) result }
{
    let words = bookmarks.words;
    let at = slot_at(i);
    let n = word(words, at + PATH_LENGTH);
    if LONGEST_PATH < n {
        return false;
    }
    let from = at + PATH;
    let to = from + n;
    row_at(children, &words[from..to]).is_some()
}

// Whether every path does.
fn all_lead(children: &Children, bookmarks: &Bookmarks) -> bool
    ensures { AllLead (take (3 * children.now.rows.count) children.now.rows.words.now) bookmarks.now.words.now bookmarks.now.count result }
{
    (0..bookmarks.count).all(|i| leads(children, bookmarks, i))
}

// ── The memory ──

// The rows of the tree's elements. By the element's number, which is its place in both columns and that of its row, with the text before it carried along.
fn fill_rows(columns: &Columns, rows: &mut [u32])
    requires { (3 * columns.now.count ≤ length rows.old) × (text_sum (elements_at columns.now.bytes.now columns.now.kinds columns.now.measures columns.now.count) ≤ 16384) }
    ensures { rows.new ≡ paste rows.old 0 (rows_from 0 (elements_at columns.now.bytes.now columns.now.kinds columns.now.measures columns.now.count)) (3 * columns.now.count) }
{
    let mut offset: usize = 0;
    for i in 0..columns.count {
        let (kind, measure) = columns.get(i);
        words::store(rows, ROW_WORDS * i, &[kind, measure, offset]);
        offset += read_spelling::length_of(kind, measure);
    }
}

// Lines 5, 20 and 21 of a tree of `n` elements with `b` bytes of text, and of bookmarks. The rows are for the tree, the spare words for where its children stand. `tree`, `n` and `b` are no value, as a memory's tree is
// in series_tree: `judge` has read the sizes, and a value of them would be made for this one call.
fn judge_memory(
    tree: &[u8],
    n: usize,
    b: usize,
    bookmarks: &Bookmarks,
    rows: &mut [u32],
    spare: &mut [u32],
) -> Result<(), Refusal>
    requires { (8 + 8 * n + b ≤ length tree.now) × (n ≤ 4096) × (b ≤ 16384) × (3 * n ≤ length rows.old) × (3 * n ≤ length spare.old) }
    ensures { Remains tree.now n b bookmarks.now.words.now bookmarks.now.count result }
{
    let columns = Columns {
        bytes: tree,
        kinds: SIZES,
        measures: SIZES + 4 * n,
        count: n,
    };
    if !read_spelling::spells(&columns, 1, b) {
        return Err(Refusal::Spelling);
    }
    if wrong_numbers(bookmarks) {
        return Err(Refusal::Bookmarks);
    }
    fill_rows(&columns, rows);
    let (roots, rest) = spare.split_at_mut(n);
    let (first, child) = rest.split_at_mut(n);
    let filled = Rows {
        count: n,
        words: rows,
    };
    fill_children(&filled, roots, first, child);
    let children = Children {
        rows: filled,
        first,
        child,
    };
    if all_lead(&children, bookmarks) {
        return Ok(());
    }
    Err(Refusal::Astray)
}

// The first refusal of a memory whose tree may have `most` elements, out of 3, 4, 5, 20 and 21.
pub fn judge(
    most: usize,
    tree: &[u8],
    bookmarks: &[u32],
    rows: &mut [u32],
    spare: &mut [u32],
) -> Result<(), Refusal>
    requires { (most ≤ 4096) × (3 * most ≤ length rows.old) × (3 * most ≤ length spare.old) }
    ensures { answered result ≡ judged (lent most (record { tree = tree.entry.now; bookmarks = bookmarks.now })) }
{
    if tree.len() < SIZES {
        return Err(Refusal::Length);
    }
    let n = read_word(tree, 0);
    let b = read_word(tree, 4);
    if most < n || 16384 < b {
        return Err(Refusal::Size);
    }
    if tree.len() < SIZES + 8 * n + b || bookmarks.is_empty() {
        return Err(Refusal::Length);
    }
    let k = word(bookmarks, 0);
    if bookmarks.len() < slot_at(k) {
        return Err(Refusal::Length);
    }
    let lent = Bookmarks {
        count: k,
        words: bookmarks,
    };
    judge_memory(tree, n, b, &lent, rows, spare)
}
