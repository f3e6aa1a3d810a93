// A later call of a series, from what is lent to the end of its run: 17, 18, 1, the memory's own lines, 2 to 7 with 16, 22, then planning and the steps (document 02, Note 14).
// Room in a lent slice stands as a clause: a value around each would be no plainer than its bound.
#![tactic(auto)]

ghost use Rattle.std.specs.Prelude.{◌≡◌, ◌≤◌, length, map};
ghost use Rattle.choices.specs.Meant.{meant};
ghost use Rattle.promises.specs.Lent.{held, Same};
ghost use Rattle.series_leave.specs.Leaving.{lent_of};
ghost use Rattle.series_follow.specs.Accepting.{AcceptsOn};
ghost use Rattle.series_follow.specs.Performing.{PerformsOn};

use choices::Choices;
use edit_perform::{Accepted, Ended, Unplanned, plan_and_run, refused_first};
use promises::Work;
use read_batch::accept;
use read_element_table::Elements;
use read_layout::{Batch, Layout};
use refusals::Refusal;
use series_check::judge;
use series_tree::{LentTree, same_tree};

// A tree left by a batch may have so many elements.
const MOST_LATER: usize = 4096;

// Lines 2 to 7 with 16, and 22 after them. Table and rows come as two slices, as read_batch says.
fn accept_same(
    b: &[u8],
    tree: &LentTree,
    table: &mut [u32],
    source: &mut [u32],
) -> Result<Layout, Refusal>
    requires { (16384 ≤ length table.old) × (6147 ≤ length source.old) }
    ensures { AcceptsOn b.now tree.now.bytes.now table.new source.new result }
{
    let l = accept(b, table, source)?;
    if same_tree(b, l, source, tree) {
        return Ok(l);
    }
    Err(Refusal::AnotherTree)
}

// From what is lent to what the run leaves, or the first refusal before 13. The rows, and the prepared rows, are first for the memory's tree. Beside `edit_perform::perform`: what is common is
// `plan_and_run`, and what comes before it is told of other answers.
pub fn perform(
    choices: Choices,
    b: &[u8],
    tree: &[u8],
    bookmarks: &[u32],
    work: &mut Work,
) -> Result<Ended, Unplanned>
    ensures same { Same work.old work.new }
    ensures lengths { map length (held work.new) ≡ map length (held work.old) }
    ensures performs { PerformsOn (meant choices) (held work.old) (lent_of tree.now bookmarks.now) b.now work.new.table.now work.new.source.now work.new.rows.now work.new.notes.now work.new.changed.now work.new.marks.now result }
{
    refused_first(choices, work)?;
    judge(MOST_LATER, tree, bookmarks, work.rows, work.prepared)?;
    let table = &mut *work.table;
    let source = &mut *work.source;
    let lent = LentTree { bytes: tree };
    let layout = accept_same(b, &lent, table, source)?;
    let accepted = Accepted {
        batch: Batch { bytes: b, layout },
        elements: Elements {
            count: layout.sizes.elements,
            table,
            source,
        },
    };
    plan_and_run(
        choices,
        &accepted,
        work.changes,
        work.notes,
        work.incoming,
        work.changed,
        work.marks,
        work.rows,
        work.prepared,
    )
}
