// A load that anyone can repeat (document 02, Note 12): the batch of a starting number, as the writer lays it out.
#![tactic(auto)]

ghost use Rattle.promises.specs.Writing.{Writes};
ghost use Rattle.refusals.specs.Numbers.{answered};
ghost use Rattle.write_batch.specs.Lent.{held, Same};
ghost use Rattle.load_batch.specs.Loads.{Loads};
ghost use Rattle.load_batch.specs.Lists.{with_calls};

use refusals::Refusal;
use write_batch::Work;
use write_layout::Lists;

// The calls, the mapping and the notes are made, and all lists are written.
#[tactic(auto, using(crate::proofs::Ways::as_many))]
fn write_calls(
    start: u32,
    kinds: &[u32],
    measures: &[u32],
    text: &[u8],
    destination: &mut [u8],
    work: &mut Work,
) -> Result<usize, Refusal>
    ensures same { Same work.old work.new }
    ensures writes { Writes (with_calls start kinds.now measures.now text.now) destination.old (held work.old) (answered result) destination.new (held work.new) }
{
    let calls = load_lists::draw_calls(start);
    let mut noted = [0u32; 8];
    let mut numbers = [0u32; 8];
    load_lists::fill_notes(start, &mut noted, &mut numbers);
    let lists = Lists {
        trees: 3,
        kinds,
        measures,
        text,
        operations: &calls.operations,
        counts: &calls.counts,
        rules: &calls.rules,
        targets: &calls.targets,
        listed: &calls.listed[..calls.many],
        inputs: &[load_draws::replaced_block(load_draws::drawn(start))],
        outputs: &[load_draws::COPY],
        noted: &noted,
        numbers: &numbers,
    };
    write_batch::write_batch(&lists, destination, work)
}

// THE LOAD of a starting number. The batch stands at the front of `destination`; on refusal `destination` is as it was. The work slices are the writer's,
// and end as zeros.
pub fn load(start: u32, destination: &mut [u8], work: &mut Work) -> Result<usize, Refusal>
    ensures same { Same work.old work.new }
    ensures loads { Loads start destination.old (held work.old) (answered result) destination.new (held work.new) }
{
    let mut kinds = [0u32; 792];
    let mut measures = [0u32; 792];
    let mut text = [0u8; 660];
    load_lists::fill_trees(&mut kinds, &mut measures, &mut text);
    write_calls(start, &kinds, &measures, &text, destination, work)
}
