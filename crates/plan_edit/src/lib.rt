// Planning: from an accepted batch to the changes that run, in order, and the notes where they settle; refusals 8, 9 and 10. In two stages: what is withdrawn and
// what becomes of each other change (`judge_changes`), then where dependents and notes go. Nothing is edited meanwhile: the run need not think of overlaps, owners or
// order again.
// Rows have their count beside them, and the table comes alone: record_changes and plan_edge say why.
// Bounds of one number, an index of what is read and room in a lent slice stand as clauses: a value around each would be no plainer than its bound.
// The slices that planning writes come apart: they are parts of work slices that serve other ends, and a stage reads some while it writes others.
// What a stage leaves for the next (`ChangesFated`, `Rewrote`) and `withdrawn`, filled with 0, stand in clauses: they speak of slices that are written between.
// That a mapping has as many elements as the batch (`counted`) is a clause too, since a `Mapping` knows no batch.
// `Ready` stands in clauses, since it names the definition's trees, which are data: as a field it would be truncated, and each proof that reads it would have to show
// that its own goal has one proof at most.
#![tactic(auto)]

ghost use Rattle.std.specs.Prelude.{◌≡◌, ◌++◌, ◌+◌, ◌*◌, ◌≤◌, length, drop, replicate};
ghost use Rattle.choices.specs.Meant.{meant};
ghost use Rattle.record_changes.specs.ChangeRow.{rows_of};
ghost use Rattle.record_changes.specs.ChangeRowLaws.{rows_words};
ghost use Rattle.plan_model.specs.Ready.{Ready};
ghost use Rattle.plan_edit.specs.Counted.{discarded_of};
ghost use Rattle.plan_edit.specs.Stages.{Sorted, LeftBy, rule_rows, RowsJudged, ChangesJudged, ChangesFated, Rewrote};
ghost use Rattle.plan_edit.specs.Answers.{PlanMade, Planning};
ghost use Rattle.plan_edit.specs.declared.Unplanned.TheVariants.{Refused, Overlap as Overlapping};

mod accepted;

pub use accepted::Accepted;
use choices::Choices;
use plan_overlap::Overlap;
use plan_upmap::Mapping;
use plan_withdraw::number_of;
use read_layout::Batch;
use record_changes::{Fate, field};
use refusals::Refusal;

// Where the words stand that tell which changes are withdrawn: behind the change rows.
pub const WITHDRAWN: usize = 3584;

// Of a plan: how many changes are recorded, how many of them stay, with a row each, how many run, how many are discarded, and the climb steps.
#[derive(Clone, Copy)]
pub struct Counts {
    pub recorded: usize,
    pub changes: usize,
    pub runs: usize,
    pub discarded: usize,
    pub climbs: usize,
}

// What the first stage finds where none overlap: how many changes are recorded, and how many of them stay, each with its fate.
#[derive(Clone, Copy)]
pub struct Fated {
    pub recorded: usize,
    pub staying: usize,
}

// Why there is no plan: a refusal; where it is 8, the numbers of the two changes that overlap. Neither an Option nor a Result: the numbers go to the account alone, so
// that they are no part of a `Refusal`.
#[derive(Clone, Copy, Debug, PartialEq, Eq)]
pub enum Unplanned {
    Refused(Refusal),
    Overlap(Overlap),
}

impl From<Refusal> for Unplanned {
    ghost from_gives = { λ r u. u ≡ Refused r };

    fn from(refusal: Refusal) -> Unplanned {
        Unplanned::Refused(refusal)
    }
}

impl From<Overlap> for Unplanned {
    ghost from_gives = { λ o u. u ≡ Overlapping o };

    fn from(overlap: Overlap) -> Unplanned {
        Unplanned::Overlap(overlap)
    }
}

// How many of the `c` changes are discarded.
fn count_discarded(rows: &[u32], c: usize) -> usize
    requires { c ≤ 256 }
    ensures { (result ≡ discarded_of (rows_of c rows.now)) × (result ≤ c) }
{
    let discarded = |&i: &usize| field(rows, i, record_changes::FATE) > Fate::Dependent as usize;
    (0..c).filter(discarded).count()
}

// The calls are recorded, and their rows written to `sorted` in sorted order. How many there are.
fn record_and_sort(
    accepted: &Accepted,
    recorded: &mut [u32],
    order: &mut [u32],
    sorted: &mut [u32],
) -> usize
    requires ready { Ready accepted.now.batch.bytes.now accepted.now.batch.layout accepted.now.elements.table.now accepted.now.elements.source.now }
    requires in_bounds { (3584 ≤ length recorded.old) × (256 ≤ length order.old) × (3584 ≤ length sorted.old) }
    ensures { Sorted accepted.now.batch.bytes.now accepted.now.batch.layout accepted.now.elements.table.now accepted.now.elements.source.now result sorted.new }
{
    let batch = &accepted.batch;
    let c = record_queue::record_calls(
        &batch.calls(),
        &batch.targets(),
        &batch.listed(),
        &accepted.elements,
        recorded,
    );
    plan_sort::sort_rows(recorded, &mut order[..c], sorted);
    c
}

// What becomes of each of `c` sorted changes, by the edge rule: the words FATE and OWNER of its row.
#[tactic(auto, using(crate::proofs::Judging::left_by_0, crate::proofs::Judging::left_by_1))]
fn state_fates(choices: Choices, sorted: &mut [u32], c: usize, table: &[u32])
    requires { (14 * c ≤ length sorted.old) × (c ≤ 256) }
    ensures { sorted.new ≡ rows_words (rule_rows (meant choices) table.now c sorted.old) ++ drop (14 * c) sorted.old }
{
    // `Choices` keeps numbers, since C gives any: so one is compared.
    if choices.edge == 0 {
        plan_changed_region::plan_fates(sorted, c);
        return;
    }
    plan_edge::plan_edge_fates(sorted, c, table);
}

// Stronger rules first, if chosen: of `n` sorted changes the withdrawn ones leave. How many stay.
fn leave_weaker(
    choices: Choices,
    sorted: &mut [u32],
    n: usize,
    table: &[u32],
    withdrawn: &mut [u32],
) -> usize
    requires { (n ≤ 256) × (14 * n ≤ length sorted.old) × (withdrawn.old ≡ replicate 256 0) }
    ensures { LeftBy (meant choices) table.now n sorted.old sorted.new withdrawn.new result }
{
    // Compared as in `state_fates`.
    if choices.stronger == 0 {
        return n;
    }
    plan_withdraw::withdraw(sorted, table, &mut withdrawn[..n])
}

// Of `n` sorted changes `c` stay: each gets its fate, unless two of these overlap, told by their numbers.
fn judge_rest(
    choices: Choices,
    sorted: &mut [u32],
    n: usize,
    c: usize,
    table: &[u32],
    withdrawn: &[u32],
) -> Result<Fated, Overlap>
    requires { (c ≤ 256) × (14 * c ≤ length sorted.old) × (n ≤ length withdrawn.now) }
    ensures { RowsJudged (meant choices) table.now n c sorted.old sorted.new withdrawn.now result }
{
    let told = &withdrawn[..n];
    plan_overlap::replacements_are_disjoint(sorted, c).map_err(|places| Overlap {
        earlier: number_of(told, places.earlier),
        later: number_of(told, places.later),
    })?;
    state_fates(choices, sorted, c, table);
    Ok(Fated {
        recorded: n,
        staying: c,
    })
}

// Rust: EditPlan::build, up to the fates. The first stage: the recorded changes in sorted order are judged. `withdrawn` tells which leave; unless two of the
// others overlap, `sorted` holds their rows with what becomes of each.
pub fn judge_changes(
    choices: Choices,
    accepted: &Accepted,
    recorded: &mut [u32],
    order: &mut [u32],
    sorted: &mut [u32],
    withdrawn: &mut [u32],
) -> Result<Fated, Overlap>
    requires ready { Ready accepted.now.batch.bytes.now accepted.now.batch.layout accepted.now.elements.table.now accepted.now.elements.source.now }
    requires in_bounds { (3584 ≤ length recorded.old) × (256 ≤ length order.old) × (3584 ≤ length sorted.old) × (withdrawn.old ≡ replicate 256 0) }
    ensures { ChangesJudged (meant choices) accepted.now.batch.bytes.now accepted.now.batch.layout accepted.now.elements.table.now accepted.now.elements.source.now sorted.new withdrawn.new result }
{
    let table = accepted.elements.table;
    let n = record_and_sort(accepted, recorded, order, sorted);
    let c = leave_weaker(choices, sorted, n, table, withdrawn);
    judge_rest(choices, sorted, n, c, table, withdrawn)
}

// The notes settle, and the rewritten changes are put in running order: the plan, or 9 or 10 of a note. `choices` names the definition's in the clauses, here and in
// the next: a ghost value in its place could be picked from a call's other arguments alone, which do not tell it.
fn settle_and_order(
    choices: Choices,
    batch: &Batch,
    mapping: &Mapping,
    changes: &[u32],
    c: usize,
    steps: usize,
    order: &mut [u32],
    running: &mut [u32],
    first: &mut [u32],
) -> Result<Counts, Unplanned>
    requires ready { Ready batch.now.bytes.now batch.now.layout mapping.now.elements.table.now mapping.now.elements.source.now }
    requires counted { mapping.now.elements.count ≡ batch.now.layout.sizes.elements }
    requires rewrote { Rewrote (meant choices) batch.now.bytes.now batch.now.layout mapping.now.elements.table.now mapping.now.elements.source.now mapping.now.map.now c steps changes.now }
    requires in_bounds { (256 ≤ length order.old) × (256 ≤ length running.old) × (768 ≤ length first.old) }
    ensures { PlanMade (meant choices) batch.now.bytes.now batch.now.layout mapping.now.elements.table.now mapping.now.elements.source.now changes.now running.new first.new result }
{
    plan_notes::settle_notes(&batch.noted(), &batch.numbers(), mapping, first)?;
    let runs = plan_postorder::running_order(changes, &mut order[..c], running);
    let discarded = count_discarded(changes, c);
    // Those withdrawn are counted last (`plan`).
    Ok(Counts {
        recorded: c,
        changes: c,
        runs,
        discarded,
        climbs: steps,
    })
}

// The second stage: dependents are rewritten into `rewritten`, by the mappings and the fated rows of `sorted`, then the notes settle: the plan, or 9 or 10.
fn rewrite_and_settle(
    choices: Choices,
    accepted: &Accepted,
    sorted: &[u32],
    c: usize,
    rewritten: &mut [u32],
    order: &mut [u32],
    running: &mut [u32],
    map: &mut [u32],
    first: &mut [u32],
) -> Result<Counts, Unplanned>
    requires ready { Ready accepted.now.batch.bytes.now accepted.now.batch.layout accepted.now.elements.table.now accepted.now.elements.source.now }
    requires changes_fated { ChangesFated (meant choices) accepted.now.batch.bytes.now accepted.now.batch.layout accepted.now.elements.table.now accepted.now.elements.source.now sorted.now c }
    requires in_bounds { (3584 ≤ length sorted.now) × (3584 ≤ length rewritten.old) × (256 ≤ length order.old) × (256 ≤ length running.old) × (2048 ≤ length map.old) × (768 ≤ length first.old) }
    ensures { PlanMade (meant choices) accepted.now.batch.bytes.now accepted.now.batch.layout accepted.now.elements.table.now accepted.now.elements.source.now rewritten.new running.new first.new result }
{
    let batch = &accepted.batch;
    plan_mapping::fill_mapping(&batch.inputs(), &batch.outputs(), map);
    let mapping = Mapping {
        elements: accepted.elements,
        map,
    };
    let k = plan_rewrite::rewrite_dependents(&mapping, &batch.listed(), sorted, c, rewritten)?;
    settle_and_order(
        choices, batch, &mapping, rewritten, c, k, order, running, first,
    )
}

// Rust: EditPlan::build, with TreeStore::with_annotations. Planning of an accepted batch: the change rows as they run, the places in running order and the
// notes where they settle, or the first refusal out of 8, 9 and 10. Behind the change rows stands which changes are withdrawn.
pub fn plan(
    choices: Choices,
    accepted: &Accepted,
    recorded: &mut [u32],
    sorted: &mut [u32],
    changes: &mut [u32],
    order: &mut [u32],
    running: &mut [u32],
    map: &mut [u32],
    first: &mut [u32],
) -> Result<Counts, Unplanned>
    requires ready { Ready accepted.now.batch.bytes.now accepted.now.batch.layout accepted.now.elements.table.now accepted.now.elements.source.now }
    requires in_bounds { (3584 ≤ length recorded.old) × (3584 ≤ length sorted.old) × (3840 ≤ length changes.old) × (256 ≤ length order.old) × (256 ≤ length running.old) × (2048 ≤ length map.old) × (768 ≤ length first.old) }
    ensures { Planning (meant choices) accepted.now.batch.bytes.now accepted.now.batch.layout accepted.now.elements.table.now accepted.now.elements.source.now changes.new running.new first.new result }
{
    let mut withdrawn = [0u32; 256];
    let fated = judge_changes(choices, accepted, recorded, order, sorted, &mut withdrawn)?;
    let c = fated.staying;
    let counts = rewrite_and_settle(
        choices, accepted, sorted, c, changes, order, running, map, first,
    )?;
    words::copy_in(changes, WITHDRAWN, &withdrawn);
    Ok(Counts {
        recorded: fated.recorded,
        ..counts
    })
}
