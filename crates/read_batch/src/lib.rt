// Lines 2 to 7, with 16 right after 6.
// Room in a lent slice and the equality of two numbers stand as clauses: a value around each would be no plainer than its bound.
// The table and the rows come as two slices: they are lent to be filled, and are `Elements` once they are.
#![tactic(auto)]

ghost use Rattle.std.specs.Prelude.{◌≡◌, ◌≤◌, length};
ghost use Rattle.definition.specs.Basics.{gives};
ghost use Rattle.read_element_table.specs.Held.{view_of};
ghost use Rattle.refusals.specs.Numbers.{answered};
ghost use Rattle.read_layout.specs.Held.{arrays_of};
ghost use Rattle.read_layout.specs.Layout.{laid};
ghost use Rattle.read_batch.specs.Accepting.{named};
ghost use Rattle.read_batch.specs.Leaving.{Judged};

use read_element_table::Elements;
use read_layout::{Batch, Layout};
use read_spelling::Columns;
use refusals::Refusal;

// Lines 6, 16 and 7.
#[tactic(auto, using(crate::proofs::Judging::wrong_calls, crate::proofs::Judging::long_lists, crate::proofs::Judging::wrong_mappings, crate::proofs::Judging::wrong_notes, crate::proofs::Judging::none_wrong))]
fn judge_names(batch: &Batch, elements: &Elements) -> Result<Layout, Refusal>
    requires { elements.now.count ≡ batch.now.layout.sizes.elements }
    ensures { answered result ≡ named (arrays_of batch.now) (view_of elements.now) batch.now.layout }
{
    let calls = batch.calls();
    if !read_names::calls_fit(&calls, &batch.targets(), &batch.listed(), elements) {
        return Err(Refusal::Call);
    }
    if !read_names::lists_fit(&calls) {
        return Err(Refusal::Listed);
    }
    if !read_names::mappings_fit(&batch.inputs(), &batch.outputs(), elements) {
        return Err(Refusal::Name);
    }
    if !read_names::notes_fit(&batch.noted(), &batch.numbers(), elements.count) {
        return Err(Refusal::Name);
    }
    Ok(batch.layout)
}

// Lines 5 to 7, of a batch with this layout: where line 5 accepts, the element table and the rows are filled.
fn judge(batch: &Batch, table: &mut [u32], source: &mut [u32]) -> Result<Layout, Refusal>
    requires laid { laid batch.now.bytes.now ≡ gives batch.now.layout }
    requires in_bounds { (16384 ≤ length table.old) × (6147 ≤ length source.old) }
    ensures { Judged batch.now.bytes.now table.old source.old table.new source.new result }
{
    let l = batch.layout;
    let count = l.sizes.elements;
    let columns = Columns {
        bytes: batch.bytes,
        kinds: l.kinds,
        measures: l.measures,
        count,
    };
    if !read_element_table::fill(&columns, l.sizes.trees, l.sizes.text, table, source) {
        return Err(Refusal::Spelling);
    }
    let elements = Elements {
        count,
        table,
        source,
    };
    judge_names(batch, &elements)
}

// Lines 2 to 7: the first refusal in checking order, or the layout.
pub fn accept(b: &[u8], table: &mut [u32], source: &mut [u32]) -> Result<Layout, Refusal>
    requires { (16384 ≤ length table.old) × (6147 ≤ length source.old) }
    ensures { Judged b.now table.old source.old table.new source.new result }
{
    let layout = read_layout::lay_out(b)?;
    let batch = Batch { bytes: b, layout };
    judge(&batch, table, source)
}
