// The writer: lists laid out as a batch (document 02, Note 2).
// Room in a lent slice stands as a clause: a value around each would be no plainer than its bound.
#![tactic(auto)]

ghost use Rattle.std.specs.Prelude.{◌≡◌, ◌≤◌, length, map};
ghost use Rattle.definition.specs.Answers.{too_short};
ghost use Rattle.definition.specs.Writing.{laid_out};
ghost use Rattle.promises.specs.Slices.{lengths, zeroed};
ghost use Rattle.promises.specs.Writing.{writer_needs, wrote, Writes};
ghost use Rattle.write_laws.specs.RoundTrip.{InStep};
ghost use Rattle.write_layout.specs.Laying.{lists_in};
ghost use Rattle.refusals.specs.Numbers.{answered};
ghost use Rattle.write_batch.specs.Lent.{held, Same};
ghost use Rattle.write_batch.specs.Handing.{Told, fitted, handed};

use refusals::Refusal;
use write_layout::Lists;

// The work slices that the writer is lent, in the order of docs/WORK.md: where the batch is laid out, and where it is judged.
#[derive(Drop)]
pub struct Work<'a> {
    pub draft: &'a mut [u8],
    pub table: &'a mut [u32],
    pub source: &'a mut [u32],
}

// Whether a work slice is shorter than its length in docs/WORK.md. Here and in `clear_work`, beside the calls' nine slices and the checker's four: each says no more than
// which slices there are, and how long.
fn too_short(work: &Work) -> bool
    ensures { result ≡ too_short (lengths writer_needs (held work.now)) }
{
    work.draft.len() < 49180 || work.table.len() < 16384 || work.source.len() < 6147
}

// Every work slice becomes zeros.
#[tactic(auto, unfolding(promises::specs::Slices::zeroed, promises::specs::Slices::zeros))]
fn clear_work(work: &mut Work)
    ensures same { Same work.old work.new }
    ensures zeros { held work.new ≡ zeroed (held work.old) }
{
    work.draft.fill(0);
    work.table.fill(0);
    work.source.fill(0);
}

// 15: the batch is copied to the destination, if there is room for it.
fn copy_out(batch: &[u8], destination: &mut [u8]) -> Result<usize, Refusal>
    ensures { Told (fitted batch.now (length destination.old)) destination.old (answered result) destination.new }
{
    if destination.len() < batch.len() {
        return Err(Refusal::ShortDestination);
    }
    words::copy_in(destination, 0, batch);
    Ok(batch.len())
}

// 14, of a batch that is laid out, then 15. It takes two of the work slices, since the batch stands in the third.
fn hand_over(
    batch: &[u8],
    destination: &mut [u8],
    table: &mut [u32],
    source: &mut [u32],
) -> Result<usize, Refusal>
    requires { (16384 ≤ length table.old) × (6147 ≤ length source.old) }
    ensures { Told (handed batch.now (length destination.old)) destination.old (answered result) destination.new }
{
    if read_batch::accept(batch, table, source).is_err() {
        return Err(Refusal::Lists);
    }
    copy_out(batch, destination)
}

// 14 and 15, of lists in step: they are laid out in the draft, and judged there before the destination is touched. It takes the slices apart, since the
// draft is read while the others are written.
fn write_in_step(
    lists: &Lists,
    destination: &mut [u8],
    draft: &mut [u8],
    table: &mut [u32],
    source: &mut [u32],
) -> Result<usize, Refusal>
    requires in_step { InStep (lists_in lists.now) }
    requires in_bounds { (49180 ≤ length draft.old) × (16384 ≤ length table.old) × (6147 ≤ length source.old) }
    ensures { Told (handed (laid_out (lists_in lists.now)) (length destination.old)) destination.old (answered result) destination.new }
{
    let n = write_layout::lay_out(draft, lists);
    hand_over(&draft[..n], destination, table, source)
}

// 1, and 14 by the lists alone; then the rest.
fn write_lists(lists: &Lists, destination: &mut [u8], work: &mut Work) -> Result<usize, Refusal>
    ensures same { Same work.old work.new }
    ensures lengths { map length (held work.new) ≡ map length (held work.old) }
    ensures told { Told (wrote (held work.old) (lists_in lists.now) (length destination.old)) destination.old (answered result) destination.new }
{
    if too_short(work) {
        return Err(Refusal::ShortWork);
    }
    if !write_layout::can_be_laid(lists) {
        return Err(Refusal::Lists);
    }
    write_in_step(lists, destination, work.draft, work.table, work.source)
}

// THE WRITER. The batch that the lists make stands at the front of `destination`; on refusal `destination` is as it was. The work slices end as zeros.
pub fn write_batch(lists: &Lists, destination: &mut [u8], work: &mut Work) -> Result<usize, Refusal>
    ensures same { Same work.old work.new }
    ensures writes { Writes (lists_in lists.now) destination.old (held work.old) (answered result) destination.new (held work.new) }
{
    let written = write_lists(lists, destination, work);
    clear_work(work);
    written
}
