// One step of the run over all that is held.
// The slices that are lent to be written stay apart, as run_tree_state says.
// Bounds of one number, an index of what is read and room in a lent slice stand as clauses: a value around each would be no plainer than its bound.
// What is held and what a `Task` is asked of stand in clauses, as the task says. Rows come with a place: record_changes says why.
#![tactic(auto)]

ghost use Rattle.std.specs.Prelude.{◌≡◌, ◌+◌, ◌*◌, ◌/◌, ◌^◌, ◌≤◌, ◌<◌, length};
ghost use Rattle.orders.specs.Lists.{All};
ghost use Rattle.definition.specs.Refusals.{most_listed};
ghost use Rattle.read_element_table.specs.View.{view};
ghost use Rattle.record_changes.specs.ChangeRowLaws.{row_at};
ghost use Rattle.run_tree_state.specs.Store.{Open};
ghost use Rattle.run_prepare.specs.Parts.{words_in};
ghost use Rattle.run_prepare.specs.Listed.{part_from};
ghost use Rattle.run_step.specs.Standing.{Lent, Standing};
ghost use Rattle.run_step.specs.Stepping.{SiteFound, SteppedAt, Performs, lists_in, Stepped};

mod task;

use record_changes::field;
use refusals::Refusal;
use rows_syntax_node::{ROW_WORDS, Rows};
use run_annotations::NOTE_WORDS;
use run_change::{change_gap, depth_above, recorded_by};
use run_prepare::{Stores, prepare};
use run_tree_state::{Parts, Site, TreeState, apply};
use run_tree_store::{TreeStore, Trees};
pub use task::Task;

// Where the change at place `k` goes, if its target is still there.
fn change_site(store: &TreeStore, changes: &[u32], k: usize) -> Option<Site>
    requires { (k < 2 ^ 32) × ((row_at changes.now k).target < length store.now.marks.now) × ((row_at changes.now k).end < length store.now.marks.now) }
    ensures { SiteFound store.now.rows.words.now store.now.rows.count store.now.table.now store.now.marks.now (row_at changes.now k) result }
{
    let gap = change_gap(store, changes, k)?;
    let above = depth_above(store.table, changes, k);
    let recorded = recorded_by(changes, k);
    let target = field(changes, k, record_changes::TARGET);
    Some(Site {
        gap,
        above,
        recorded,
        target,
    })
}

// The elements that the change at place `k` lists. Bytes, as run_prepare says.
fn listed<'a>(task: &Task<'a>, k: usize) -> &'a [u8]
    requires { (k < 2 ^ 32) × (4 * (row_at task.now.changes.now k).list + 4 * (row_at task.now.changes.now k).count ≤ length task.now.listed.now) }
    ensures { result.now ≡ part_from task.now.listed.now (row_at task.now.changes.now k).list (row_at task.now.changes.now k).count }
{
    let from = 4 * field(task.changes, k, record_changes::LIST);
    let to = from + 4 * field(task.changes, k, record_changes::COUNT);
    &task.listed[from..to]
}

// The gap gives way to what the listed elements yield.
fn step_at(
    rows: &mut [u32],
    marks: &mut [u32],
    notes: &mut [u32],
    changed: &mut [u32],
    prepared: &mut [u32],
    sizes: &mut [u32],
    incoming: &mut [u32],
    task: &Task,
    list: &[u8],
    s: TreeState,
    site: &Site,
) -> Result<TreeState, Refusal>
    requires fact { Open s rows.old marks.old notes.old changed.old site.now.gap site.now.recorded (length list.now / 4) }
    requires room { Lent rows.old notes.old prepared.old sizes.old incoming.old }
    requires task_in_bounds { (length marks.old ≤ 2048) × (3 * length marks.old + 3 ≤ length task.now.source.now) × (length task.now.first.now ≤ 768) × (length list.now ≤ 4 * most_listed) × All (λ e. e < length marks.old) (words_in list.now) }
    ensures { SteppedAt s rows.old marks.old notes.old changed.old task.now.source.now task.now.first.now site.now.gap site.now.above site.now.recorded (words_in list.now) rows.new marks.new notes.new changed.new result }
{
    let held = Rows {
        count: s.rows,
        words: rows,
    };
    let trees = Trees { rows: held, marks };
    let stores = Stores {
        trees,
        notes: &notes[..NOTE_WORDS * s.notes],
        source: task.source,
        first: task.first,
    };
    let at = site.gap.from;
    let made = prepare(&stores, list, at, prepared, sizes, incoming).ok_or(Refusal::Large)?;
    let parts = Parts {
        run: &prepared[..ROW_WORDS * made.rows],
        sizes: &sizes[..list.len() / 4],
        notes: &incoming[..NOTE_WORDS * made.notes],
    };
    apply(rows, marks, notes, changed, s, site, &parts)
}

// Rust: the body of TreeStore::execute. One performed change, the one at place `k`: 11, 12, or what is held then.
pub fn step(
    rows: &mut [u32],
    marks: &mut [u32],
    notes: &mut [u32],
    changed: &mut [u32],
    prepared: &mut [u32],
    sizes: &mut [u32],
    incoming: &mut [u32],
    task: &Task,
    k: usize,
    s: TreeState,
) -> Result<TreeState, Refusal>
    requires standing { Standing (length marks.old) task.now.table.now task.now.source.now task.now.first.now s rows.old marks.old notes.old changed.old }
    requires in_bounds { Lent rows.old notes.old prepared.old sizes.old incoming.old }
    requires listed_low { All (λ e. e < length marks.old) (words_in task.now.listed.now) × (k < 2 ^ 32) }
    requires performs { Performs (length marks.old) (view (length marks.old) task.now.table.now task.now.source.now) (words_in task.now.listed.now) (row_at task.now.changes.now k) }
    requires k_in_bounds { s.changed + lists_in (view (length marks.old) task.now.table.now task.now.source.now) (words_in task.now.listed.now) (row_at task.now.changes.now k) ≤ length changed.old }
    ensures { Stepped task.now.table.now task.now.source.now task.now.first.now (words_in task.now.listed.now) (row_at task.now.changes.now k) s rows.old marks.old notes.old changed.old rows.new marks.new notes.new changed.new result }
{
    let held = Rows {
        count: s.rows,
        words: rows,
    };
    let store = TreeStore {
        rows: held,
        marks,
        table: task.table,
    };
    let site = change_site(&store, task.changes, k).ok_or(Refusal::Gone)?;
    let list = listed(task, k);
    step_at(
        rows, marks, notes, changed, prepared, sizes, incoming, task, list, s, &site,
    )
}
