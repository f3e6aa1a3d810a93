// The memory that an accepted batch leaves (document 02, Note 14).
// What is known then (`Leaving`) stands as a clause: it names the definition's memory and step, which are data.
#![tactic(auto)]

ghost use Rattle.std.specs.Prelude.{◌≡◌, ◌+◌, ◌*◌, ◌≤◌, length};
ghost use Rattle.series_laws.specs.Lent.{left_in};
ghost use Rattle.series_leave.specs.Leaving.{Leaving, lent_of};

use series_move::{RunEnd, move_bookmarks};
use series_tree::write_tree;

// At the end of an accepted batch, once its new tree is known to fit: the new tree, and the bookmarks that survive; beyond both what was held. The spare words are for what the rows tell of bookmarks.
pub fn leave(run: &RunEnd, text: &[u8], tree: &mut [u8], bookmarks: &mut [u32], spare: &mut [u32])
    requires leaving { Leaving run.now.source.now run.now.elements run.now.marks.now run.now.rows.words.now run.now.rows.count text.now tree.old bookmarks.old }
    requires spare_in_bounds { 3 * (run.now.elements + 1) + run.now.rows.count ≤ length spare.old }
    ensures { (v : Leaving run.now.source.now run.now.elements run.now.marks.now run.now.rows.words.now run.now.rows.count text.now tree.old bookmarks.old) → lent_of tree.new bookmarks.new ≡ left_in (lent_of tree.old bookmarks.old) v.step.memory }
{
    write_tree(tree, &run.rows, text);
    move_bookmarks(run, bookmarks, spare);
}
