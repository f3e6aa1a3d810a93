// The tree of a memory: whether a batch's tree 0 is that tree (22), whether the new tree fits (13), and that tree written.
// Bounds of one number and room in a lent slice stand as clauses: a value around each would be no plainer than its bound. That a batch is accepted and read (`Read`) names what is accepted,
// which is data, and so is a clause too.
#![tactic(auto)]

ghost use Rattle.std.specs.Prelude.{◌≡◌, ◌+◌, ◌*◌, ◌/◌, ◌^◌, ◌≤◌, ◌<◌, ltb, length, drop};
ghost use mathlib.Core.List.{flat_map};
ghost use Rattle.definition.specs.Basics.{gives};
ghost use Rattle.definition.specs.Words.{word, words};
ghost use Rattle.definition.specs.Refusals.{Accepted, accepted};
ghost use Rattle.rows_model.specs.Row.{own, bytes, first_rows, triples};
ghost use Rattle.check_laws.specs.Check.{same_bytes};
ghost use Rattle.check_laws.specs.Claimed.{old_tree, flat_of};
ghost use Rattle.series_laws.specs.Memory.{same_tree};
ghost use Rattle.series_laws.specs.Lent.{tree_in, tree_bytes, tree_out, over};
ghost use Rattle.series_tree.specs.Old.{Read, flat_beside};
ghost use Rattle.series_tree.specs.New.{flat_in, new_in};

mod lent_tree;

use check_clauses::same_bytes;
use finish_arrays::{text_size, write_elements, write_text};
use finish_model::first_tree;
pub use lent_tree::LentTree;
use read_layout::Layout;
use read_spelling::Columns;
use rows_syntax_node::{ROW_WORDS, Rows, text_bytes};
use series_check::SIZES;
use words::{read_word, write_word};

// ── 22 ──

// Whether the `n` words at `i` of some bytes are those at `j` of others: just where their bytes are, which the library compares. Beside `same_bytes`, since each of its two
// calls would show that words are the same where bytes are.
fn same_words(a: &[u8], i: usize, b: &[u8], j: usize, n: usize) -> bool
    requires { (i + 4 * n ≤ length a.now) × (j + 4 * n ≤ length b.now) }
    ensures { result ≡ same_bytes (words n (drop i a.now)) (words n (drop j b.now)) }
{
    same_bytes(&a[i..i + 4 * n], &b[j..j + 4 * n])
}

// Whether a tree, whose elements stand in these columns and whose text stands beside them, is that of a memory.
fn same_arrays(columns: &Columns, text: &[u8], tree: &LentTree) -> bool
    ensures { result ≡ same_tree (flat_beside columns.now.bytes.now columns.now.kinds columns.now.measures columns.now.count text.now) (tree_in (word tree.now.bytes.now) (word (drop 4 tree.now.bytes.now)) tree.now.bytes.now) }
{
    let lent = tree.bytes;
    let n = read_word(lent, 0);
    let m = read_word(lent, 4);
    if columns.count != n {
        return false;
    }
    if text.len() != m {
        return false;
    }
    if !same_words(columns.bytes, columns.kinds, lent, SIZES, n) {
        return false;
    }
    if !same_words(columns.bytes, columns.measures, lent, SIZES + 4 * n, n) {
        return false;
    }
    let from = SIZES + 8 * n;
    let to = from + m;
    same_bytes(text, &lent[from..to])
}

// 22: whether tree 0 of an accepted batch is the tree left before. `b` and `l` are no `Batch`: of the layout `Read` asks less than that all arrays lie within.
pub fn same_tree(b: &[u8], l: Layout, source: &[u32], tree: &LentTree) -> bool
    requires { Read b.now l source.now }
    ensures { (a : Accepted) → accepted b.now ≡ gives a → result ≡ same_tree (flat_of (old_tree a.trees)) (tree_in (word tree.now.bytes.now) (word (drop 4 tree.now.bytes.now)) tree.now.bytes.now) }
{
    let s = l.sizes;
    let old = Rows {
        count: s.elements + 1,
        words: source,
    };
    let first = first_tree(&old);
    let columns = Columns {
        bytes: b,
        kinds: l.kinds,
        measures: l.measures,
        count: first.len() / ROW_WORDS,
    };
    let end = l.text + text_bytes(first);
    same_arrays(&columns, &b[l.text..end], tree)
}

// ── The new tree ──

// 13: whether the new tree, from the rows of all trees as the run leaves them, takes more than `space` bytes. It takes `Rows` and no `Left`, as `write_tree`
// does, which `leave` calls with the rows of a `RunEnd`: so both speak of the same.
pub fn lacks_room(rows: &Rows, text: &[u8], space: usize) -> bool
    requires { (1 ≤ rows.now.count) × (bytes (first_rows text.now rows.now.count rows.now.words.now) < 2 ^ 32) }
    ensures { result ≡ ltb space (tree_bytes (length (new_in text.now rows.now.count rows.now.words.now).kinds) (length (new_in text.now rows.now.count rows.now.words.now).text)) }
{
    let tree = first_tree(rows);
    let size = text_size(tree, text);
    space < SIZES + 8 * (tree.len() / ROW_WORDS) + size
}

// A tree with `size` bytes of text is written to the front of `memory`: its two sizes, kinds, measures, text.
fn write_flat(memory: &mut [u8], tree: &[u32], size: usize, text: &[u8])
    requires size_in_bounds { (8 + 8 * (length tree.now / 3) + size ≤ length memory.old) × (length tree.now < 3 * 2 ^ 16) }
    requires size_value { (size ≡ length (flat_map own (triples text.now tree.now))) × (size < 2 ^ 32) }
    ensures { memory.new ≡ over (tree_out (flat_in (triples text.now tree.now))) memory.old }
{
    write_word(memory, 0, tree.len() / ROW_WORDS);
    write_word(memory, 4, size);
    let elements = write_elements(memory, SIZES, tree);
    write_text(memory, SIZES + 8 * elements, tree, text);
}

// The new tree, which is known to fit, is written to the front of `memory`; beyond it what was held.
pub fn write_tree(memory: &mut [u8], rows: &Rows, text: &[u8])
    requires some_rows { (1 ≤ rows.now.count) × (bytes (first_rows text.now rows.now.count rows.now.words.now) < 2 ^ 32) }
    requires room { tree_bytes (length (new_in text.now rows.now.count rows.now.words.now).kinds) (length (new_in text.now rows.now.count rows.now.words.now).text) ≤ length memory.old }
    ensures { memory.new ≡ over (tree_out (new_in text.now rows.now.count rows.now.words.now)) memory.old }
{
    let tree = first_tree(rows);
    let size = text_size(tree, text);
    write_flat(memory, tree, size, text);
}
