// What the listed elements of a step yield: their rows one behind another, the number of rows of each, and the notes that come along.
// The slices that are lent to be written stay apart, as run_tree_state says.
// Bounds of one number, an index of what is read and room in a lent slice stand as clauses: a value around each would be no plainer than its bound.
// That the list names elements stands in a clause, since it is of the list's bytes and of the marks together.
#![tactic(auto)]

ghost use Rattle.std.specs.Prelude.{◌/◌, ◌≤◌, ◌<◌, length};
ghost use Rattle.orders.specs.Lists.{All};
ghost use Rattle.run_prepare.specs.Parts.{words_in, notes_in};
ghost use Rattle.run_prepare.specs.Promises.{NotesAlong, ElementPrepared, ElementsPrepared};

mod stores;

use rows_syntax_node::{ROW_WORDS, append_rows};
use run_tree_store::{MOST_NOTES, prepared_rows, row_of};
pub use stores::Stores;
use words::read_word;

// How many rows and notes come in.
#[derive(Clone, Copy)]
pub struct Prepared {
    pub rows: usize,
    pub notes: usize,
}

// The notes that come along with the `size` rows of element `e` go behind the first `c`, told from the row `at` on: while its mark is there those
// held now, else the first ones.
fn element_notes(
    stores: &Stores,
    e: usize,
    size: usize,
    at: usize,
    incoming: &mut [u32],
    c: usize,
) -> Option<usize>
    requires { (e < length stores.now.trees.marks.now) × (size ≤ 4096) × (at ≤ 8193) × (c ≤ 1024) × (3072 ≤ length incoming.old) }
    ensures { NotesAlong stores.now.trees.marks.now stores.now.first.now (notes_in stores.now.notes.now) e size at incoming.old c incoming.new result }
{
    let Some(m) = row_of(stores.trees.marks, e) else {
        return run_annotations::notes_in(
            stores.first,
            e + 1,
            e + 1 + size,
            at,
            incoming,
            c,
            MOST_NOTES,
        );
    };
    run_annotations::notes_in(stores.notes, m, m + size, at, incoming, c, MOST_NOTES)
}

// Rust: TreeStore::prepare_element. What element `e` yields goes behind the rows and notes that have come in; prepared row 0 comes to stand at the row `at`.
// None if that is more than a step may bring.
fn prepare_element(
    stores: &Stores,
    e: usize,
    at: usize,
    prepared: &mut [u32],
    incoming: &mut [u32],
    held: Prepared,
) -> Option<Prepared>
    requires e_in_bounds { (e < length stores.now.trees.marks.now) × (at ≤ 4097) }
    requires room { (held.rows ≤ 4096) × (12288 ≤ length prepared.old) × (held.notes ≤ 1024) × (3072 ≤ length incoming.old) }
    ensures { ElementPrepared stores.now.trees.rows.words.now stores.now.trees.rows.count stores.now.source.now stores.now.trees.marks.now stores.now.first.now (notes_in stores.now.notes.now) e at prepared.old held.rows incoming.old held.notes prepared.new incoming.new result }
{
    let run = prepared_rows(&stores.trees, stores.source, e);
    let size = run.len() / ROW_WORDS;
    if 4096 - held.rows < size {
        return None;
    }
    let end = append_rows(prepared, held.rows, run);
    let count = element_notes(stores, e, size, at + held.rows, incoming, held.notes)?;
    Some(Prepared {
        rows: end,
        notes: count,
    })
}

// Rust: `replacement` in TreeStore::execute. What the listed elements yield: all are prepared before the step's splice,
// which may remove them, and prepared row 0 comes to stand at the row `at`. None if that is more than a step may bring.
// A turn reads the list's word by its number: a `zip` of the list's chunks with the sizes would read each word from its four bytes by hand. The list is bytes and
// no `WordList`: the run's promises speak of `words_in` of all its bytes, and each would name where it starts and its count too.
pub fn prepare(
    stores: &Stores,
    list: &[u8],
    at: usize,
    prepared: &mut [u32],
    sizes: &mut [u32],
    incoming: &mut [u32],
) -> Option<Prepared>
    requires all { All (λ e. e < length stores.now.trees.marks.now) (words_in list.now) }
    requires room { (at ≤ 4097) × (12288 ≤ length prepared.old) × (length list.now / 4 ≤ length sizes.old) × (3072 ≤ length incoming.old) }
    ensures { ElementsPrepared stores.now.trees.rows.words.now stores.now.trees.rows.count stores.now.source.now stores.now.trees.marks.now stores.now.first.now (notes_in stores.now.notes.now) (words_in list.now) at prepared.new sizes.new incoming.new result }
{
    let mut held = Prepared { rows: 0, notes: 0 };
    let n = list.len() / 4;
    for (i, size) in sizes[..n].iter_mut().enumerate() {
        let e = read_word(list, 4 * i);
        let next = prepare_element(stores, e, at, prepared, incoming, held)?;
        *size = (next.rows - held.rows) as u32;
        held = next;
    }
    Some(held)
}
