// Bookmarks moved by a run: a bookmark is an old element, and the element's mark says where it stands now.
// Bounds of one number, an index of what is read and room in a lent slice stand as clauses: a value around each would be no plainer than its bound. What says that elements stand somewhere
// (`Stands`, `Here`, `Moving`) names the definition's run, which is data, and so is a clause too. They take the run's five words
// apart: their laws, of lists, are also those of words that no `RunEnd` holds.
#![tactic(auto)]

ghost use Rattle.std.specs.Prelude.{◌≡◌, ◌+◌, ◌*◌, ◌^◌, ◌≤◌, ◌<◌, length, get_or, take};
ghost use Rattle.std.proofs.Math.Seq.{paste};
ghost use Rattle.series_laws.specs.Follow.{kept};
ghost use Rattle.series_laws.specs.Lent.{bookmark_in, bookmark_out};
ghost use Rattle.series_check.specs.Slots.{slot_at};
ghost use Rattle.series_move.specs.Found.{Stands};
ghost use Rattle.series_move.specs.Paths.{PathNow};
ghost use Rattle.series_move.specs.Kept.{Here, Put};
ghost use Rattle.series_move.specs.Packing.{Moving, Packs, bookmarks_after};

mod run_end;

use rows_children::{child_at, fill_begun, fill_children};
use rows_syntax_node::Rows;
pub use run_end::RunEnd;
use run_end::Ways;
use series_check::{PATH, PATH_LENGTH, slot_at};
use words::{word, word_or_zero};

// ── One path ──

// The path now of the element to which a path leads; false where it is gone. Down its old path each element has a row in the source and a mark; behind its parent as many more trees begin than
// from it on as its number tells. A truth value, since the path goes to a lent slice: an option would hold nothing more.
fn path_now(ways: &Ways, path: &[u32], out: &mut [u32]) -> bool
    requires stands { Stands ways.now.run.source.now ways.now.run.elements ways.now.run.marks.now ways.now.run.rows.words.now ways.now.run.rows.count path.now }
    requires path_in_bounds { length path.now ≤ length out.old }
    ensures { PathNow ways.now.run.source.now ways.now.run.elements ways.now.run.marks.now ways.now.run.rows.words.now ways.now.run.rows.count path.now out.new result }
{
    let marks = ways.run.marks;
    let mut x = 1;
    let mut mark = word_or_zero(marks, 0);
    for (j, number) in path.iter().enumerate() {
        x = child_at(ways.first, ways.child, x, *number as usize);
        let here = word_or_zero(marks, x - 1);
        // By `word_or_zero`: below an element that is gone all marks are 0, and what is written is not read.
        let behind = word_or_zero(ways.begun, mark + 1);
        out[j] = behind.saturating_sub(word_or_zero(ways.begun, here)) as u32;
        mark = here;
    }
    mark != 0
}

// ── One bookmark ──

// A bookmark is written to slot `to`.
fn put_bookmark(bookmarks: &mut [u32], to: usize, number: u32, path: &[u32])
    requires { (1 + 65 * (to + 1) ≤ length bookmarks.old) × (to < 2 ^ 32) × (length path.now ≤ 63) }
    ensures { bookmarks.new ≡ paste bookmarks.old (1 + 65 * to) (bookmark_out (number, path.now)) (2 + length path.now) }
{
    let at = slot_at(to);
    bookmarks[at] = number;
    bookmarks[at + PATH_LENGTH] = path.len() as u32;
    words::copy_in(bookmarks, at + PATH, path);
}

// The bookmark of slot `i` after a run: written to slot `to`, which is no later, or dropped. The slot for the next one. `path` is lent
// for all bookmarks, as long as the longest path.
fn move_bookmark(ways: &Ways, bookmarks: &mut [u32], i: usize, to: usize, path: &mut [u32]) -> usize
    requires here { Here ways.now.run.source.now ways.now.run.elements ways.now.run.marks.now ways.now.run.rows.words.now ways.now.run.rows.count (slot_at bookmarks.old i) }
    requires i_in_bounds { (1 + 65 * (i + 1) ≤ length bookmarks.old) × (to ≤ i) × (i < 2 ^ 32) × (63 ≤ length path.old) }
    ensures { (h : Here ways.now.run.source.now ways.now.run.elements ways.now.run.marks.now ways.now.run.rows.words.now ways.now.run.rows.count (slot_at bookmarks.old i)) → Put bookmarks.old to (kept h.run.moves (bookmark_in (slot_at bookmarks.old i))) bookmarks.new result }
{
    let at = slot_at(i);
    let k = word(bookmarks, at + PATH_LENGTH);
    let from = at + PATH;
    let end = from + k;
    if path_now(ways, &bookmarks[from..end], path) {
        let number = bookmarks[at];
        put_bookmark(bookmarks, to, number, &path[..k]);
        return to + 1;
    }
    to
}

// ── All bookmarks ──

// The `k` bookmarks after a run: the survivors in their order, in the first slots. How many they are. Counts, since the memory's format has one in its first word,
// and fewer bookmarks leave the slots beyond theirs as they were.
fn pack_bookmarks(ways: &Ways, bookmarks: &mut [u32], k: usize, path: &mut [u32]) -> usize
    requires moving { Moving ways.now.run.source.now ways.now.run.elements ways.now.run.marks.now ways.now.run.rows.words.now ways.now.run.rows.count bookmarks.old k }
    requires k_in_bounds { (1 + 65 * k ≤ length bookmarks.old) × (k < 2 ^ 32) × (63 ≤ length path.old) }
    ensures { (result ≤ k) × ((v : Moving ways.now.run.source.now ways.now.run.elements ways.now.run.marks.now ways.now.run.rows.words.now ways.now.run.rows.count bookmarks.old k) → Packs v.run.moves bookmarks.old k bookmarks.new result) }
{
    let mut to = 0;
    for i in 0..k {
        to = move_bookmark(ways, bookmarks, i, to, path);
    }
    to
}

// The lent bookmarks after a run: their count, and the survivors in their order; beyond them what was held. The spare words are for where the children of the old elements stand, and for
// how many trees begin from each of the new rows on.
pub fn move_bookmarks(run: &RunEnd, bookmarks: &mut [u32], spare: &mut [u32])
    requires moving { Moving run.now.source.now run.now.elements run.now.marks.now run.now.rows.words.now run.now.rows.count bookmarks.old (get_or bookmarks.old 0 0) }
    requires bookmarks_in_bounds { (1 + 65 * get_or bookmarks.old 0 0 ≤ length bookmarks.old) × (3 * (run.now.elements + 1) + run.now.rows.count ≤ length spare.old) }
    ensures { (v : Moving run.now.source.now run.now.elements run.now.marks.now run.now.rows.words.now run.now.rows.count bookmarks.old (get_or bookmarks.old 0 0)) → bookmarks.new ≡ bookmarks_after v.run.moves bookmarks.old }
{
    let n = run.elements + 1;
    let old = Rows {
        count: n,
        words: run.source,
    };
    let (roots, rest) = spare.split_at_mut(n);
    let (first, rest) = rest.split_at_mut(n);
    let (child, begun) = rest.split_at_mut(n);
    fill_children(&old, roots, first, child);
    fill_begun(&run.rows, begun);
    let ways = Ways {
        run: *run,
        first,
        child,
        begun,
    };
    let mut path = [0u32; 63];
    let k = word(bookmarks, 0);
    let to = pack_bookmarks(&ways, bookmarks, k, &mut path);
    bookmarks[0] = to as u32;
}
