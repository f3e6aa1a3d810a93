// The public calls for C and Rust: a slice is a pointer and a length, an outcome is one number.
// Each call makes `Work` of its nine slices itself: a function for that would be handed the nine again.
#![tactic(auto)]

ghost use Rattle.std.specs.Prelude.{◌∷◌, []};
ghost use Rattle.load_laws.specs.Load.{load};
ghost use Rattle.edit_numbers.specs.Returned.{Returns, ReturnsElement, ReturnsAccount, ReturnsShare, ReturnsKept};
ghost use Rattle.edit_numbers.specs.ReturnedBatch.{ReturnsBatch};

use choices::Choices;
use edit_algo::serve;
use promises::{Job, Work};
use write_layout::Lists;

// THE EDIT of a batch: the length of the answer, which stands at the front of `res`, or a refusal's number with a minus.
// The nine others are work slices, which end as zeros.
#[unsafe(no_mangle)]
pub extern "C" fn syntax_edit(
    edge: usize,
    stronger: usize,
    batch: &[u8],
    res: &mut [u8],
    table: &mut [u32],
    source: &mut [u32],
    changes: &mut [u32],
    notes: &mut [u32],
    incoming: &mut [u32],
    changed: &mut [u32],
    marks: &mut [u32],
    rows: &mut [u32],
    prepared: &mut [u32],
) -> i64
    ensures { Returns (record { edge = edge; stronger = stronger }) batch.now res.old (table.old ∷ source.old ∷ changes.old ∷ notes.old ∷ incoming.old ∷ changed.old ∷ marks.old ∷ rows.old ∷ prepared.old ∷ []) result res.new (table.new ∷ source.new ∷ changes.new ∷ notes.new ∷ incoming.new ∷ changed.new ∷ marks.new ∷ rows.new ∷ prepared.new ∷ []) }
{
    let mut work = Work {
        table,
        source,
        changes,
        notes,
        incoming,
        changed,
        marks,
        rows,
        prepared,
    };
    let told = serve(Choices { edge, stronger }, Job::Edit, batch, res, &mut work);
    edit_numbers::number_of(told)
}

// The first node of the new tree with the kind and the text start of the old tree's node `number`: its number, −1000 if there is none, or a
// refusal's number with a minus. The nine others are work slices, which end as zeros.
#[unsafe(no_mangle)]
pub extern "C" fn syntax_find_element(
    edge: usize,
    stronger: usize,
    batch: &[u8],
    number: usize,
    table: &mut [u32],
    source: &mut [u32],
    changes: &mut [u32],
    notes: &mut [u32],
    incoming: &mut [u32],
    changed: &mut [u32],
    marks: &mut [u32],
    rows: &mut [u32],
    prepared: &mut [u32],
) -> i64
    ensures { ReturnsElement (record { edge = edge; stronger = stronger }) batch.now number (table.old ∷ source.old ∷ changes.old ∷ notes.old ∷ incoming.old ∷ changed.old ∷ marks.old ∷ rows.old ∷ prepared.old ∷ []) result (table.new ∷ source.new ∷ changes.new ∷ notes.new ∷ incoming.new ∷ changed.new ∷ marks.new ∷ rows.new ∷ prepared.new ∷ []) }
{
    let mut none = [0u8; 0];
    let mut work = Work {
        table,
        source,
        changes,
        notes,
        incoming,
        changed,
        marks,
        rows,
        prepared,
    };
    let told = serve(
        Choices { edge, stronger },
        Job::Find(number),
        batch,
        &mut none,
        &mut work,
    );
    edit_numbers::number_of(told)
}

// THE ACCOUNT of a batch, what becomes of each change or which two overlap: the length of the text, which stands at the front of `res`, or a refusal's
// number with a minus.
// The nine others are work slices, which end as zeros.
#[unsafe(no_mangle)]
pub extern "C" fn syntax_account(
    edge: usize,
    stronger: usize,
    batch: &[u8],
    res: &mut [u8],
    table: &mut [u32],
    source: &mut [u32],
    changes: &mut [u32],
    notes: &mut [u32],
    incoming: &mut [u32],
    changed: &mut [u32],
    marks: &mut [u32],
    rows: &mut [u32],
    prepared: &mut [u32],
) -> i64
    ensures { ReturnsAccount (record { edge = edge; stronger = stronger }) batch.now res.old (table.old ∷ source.old ∷ changes.old ∷ notes.old ∷ incoming.old ∷ changed.old ∷ marks.old ∷ rows.old ∷ prepared.old ∷ []) result res.new (table.new ∷ source.new ∷ changes.new ∷ notes.new ∷ incoming.new ∷ changed.new ∷ marks.new ∷ rows.new ∷ prepared.new ∷ []) }
{
    let mut work = Work {
        table,
        source,
        changes,
        notes,
        incoming,
        changed,
        marks,
        rows,
        prepared,
    };
    let told = serve(
        Choices { edge, stronger },
        Job::Account,
        batch,
        res,
        &mut work,
    );
    edit_numbers::number_of(told)
}

// THE SHARE OF TEXT REWRITTEN by a batch, in thousandths: 65,536 times the quotient and the remainder, or a refusal's number with a minus. The nine others are
// work slices, which end as zeros.
#[unsafe(no_mangle)]
pub extern "C" fn syntax_share(
    edge: usize,
    stronger: usize,
    batch: &[u8],
    table: &mut [u32],
    source: &mut [u32],
    changes: &mut [u32],
    notes: &mut [u32],
    incoming: &mut [u32],
    changed: &mut [u32],
    marks: &mut [u32],
    rows: &mut [u32],
    prepared: &mut [u32],
) -> i64
    ensures { ReturnsShare (record { edge = edge; stronger = stronger }) batch.now (table.old ∷ source.old ∷ changes.old ∷ notes.old ∷ incoming.old ∷ changed.old ∷ marks.old ∷ rows.old ∷ prepared.old ∷ []) result (table.new ∷ source.new ∷ changes.new ∷ notes.new ∷ incoming.new ∷ changed.new ∷ marks.new ∷ rows.new ∷ prepared.new ∷ []) }
{
    let mut none = [0u8; 0];
    let mut work = Work {
        table,
        source,
        changes,
        notes,
        incoming,
        changed,
        marks,
        rows,
        prepared,
    };
    let told = serve(
        Choices { edge, stronger },
        Job::Share,
        batch,
        &mut none,
        &mut work,
    );
    edit_numbers::number_of(told)
}

// THE SURVIVING PAIRS of a batch's edit: how many bytes they have, or a refusal's number with a minus. Each element of the old tree that is in the new tree, by rising
// numbers, makes a pair: all old numbers, then all new ones, stand at the front of `res`, a word of four bytes each.
// The nine others are work slices, which end as zeros.
#[unsafe(no_mangle)]
pub extern "C" fn syntax_kept(
    edge: usize,
    stronger: usize,
    batch: &[u8],
    res: &mut [u8],
    table: &mut [u32],
    source: &mut [u32],
    changes: &mut [u32],
    notes: &mut [u32],
    incoming: &mut [u32],
    changed: &mut [u32],
    marks: &mut [u32],
    rows: &mut [u32],
    prepared: &mut [u32],
) -> i64
    ensures { ReturnsKept (record { edge = edge; stronger = stronger }) batch.now res.old (table.old ∷ source.old ∷ changes.old ∷ notes.old ∷ incoming.old ∷ changed.old ∷ marks.old ∷ rows.old ∷ prepared.old ∷ []) result res.new (table.new ∷ source.new ∷ changes.new ∷ notes.new ∷ incoming.new ∷ changed.new ∷ marks.new ∷ rows.new ∷ prepared.new ∷ []) }
{
    let mut work = Work {
        table,
        source,
        changes,
        notes,
        incoming,
        changed,
        marks,
        rows,
        prepared,
    };
    let told = serve(Choices { edge, stronger }, Job::Kept, batch, res, &mut work);
    edit_numbers::number_of(told)
}

// THE WRITER: the length of the batch that the lists make, which stands at the front of `destination`, or a refusal's number with a minus. Over 40 lines by its
// parameters, which C lends apart.
// The three others are work slices, which end as zeros.
#[unsafe(no_mangle)]
pub extern "C" fn syntax_write(
    trees: usize,
    kinds: &[u32],
    measures: &[u32],
    text: &[u8],
    operations: &[u32],
    counts: &[u32],
    rules: &[u32],
    targets: &[u32],
    listed: &[u32],
    inputs: &[u32],
    outputs: &[u32],
    noted: &[u32],
    numbers: &[u32],
    destination: &mut [u8],
    draft: &mut [u8],
    table: &mut [u32],
    source: &mut [u32],
) -> i64
    ensures { ReturnsBatch (record { trees = trees; kinds = kinds.now; measures = measures.now; text = text.now; operations = operations.now; counts = counts.now; rules = rules.now; targets = targets.now; listed = listed.now; inputs = inputs.now; outputs = outputs.now; noted = noted.now; numbers = numbers.now }) destination.old (draft.old ∷ table.old ∷ source.old ∷ []) result destination.new (draft.new ∷ table.new ∷ source.new ∷ []) }
{
    let lists = Lists {
        trees,
        kinds,
        measures,
        text,
        operations,
        counts,
        rules,
        targets,
        listed,
        inputs,
        outputs,
        noted,
        numbers,
    };
    let mut work = write_batch::Work {
        draft,
        table,
        source,
    };
    let told = write_batch::write_batch(&lists, destination, &mut work);
    edit_numbers::number_written(told)
}

// THE LOAD of a starting number: the length of the batch, which stands at the front of `destination`, or a refusal's number (1 or 15) with a minus.
// The three others are work slices, which end as zeros.
#[unsafe(no_mangle)]
pub extern "C" fn syntax_load(
    start: u32,
    destination: &mut [u8],
    draft: &mut [u8],
    table: &mut [u32],
    source: &mut [u32],
) -> i64
    ensures { ReturnsBatch (load start) destination.old (draft.old ∷ table.old ∷ source.old ∷ []) result destination.new (draft.new ∷ table.new ∷ source.new ∷ []) }
{
    let mut work = write_batch::Work {
        draft,
        table,
        source,
    };
    let told = load_batch::load(start, destination, &mut work);
    edit_numbers::number_written(told)
}
