// Where the notes of a batch settle, as words of rows.
// Bounds of one number and room in a lent slice stand as clauses: a value around each would be no plainer than its bound. That two lists are of one length is a clause, as
// read_names says.
#![tactic(auto)]

ghost use mathlib.Core.List.{zip};
ghost use Rattle.std.specs.Prelude.{◌≡◌, ◌*◌, ◌≤◌, ◌<◌, length};
ghost use Rattle.orders.specs.Lists.{All};
ghost use Rattle.words.specs.List.{words_of};
ghost use Rattle.plan_notes.specs.Answers.{NotesSettled};

use plan_upmap::Mapping;
use refusals::Refusal;
use words::WordList;

// Rust: TreeStore::with_annotations. Each of the notes, an element with its number, settles, in order, and three words are written: the row of its element in
// the batch's rows, its number, its queue place. The first that is refused ends it. By number: words in bytes have no iterator, and one of our own would need its laws proved.
pub fn settle_notes(
    noted: &WordList,
    numbers: &WordList,
    mapping: &Mapping,
    notes: &mut [u32],
) -> Result<(), Refusal>
    requires counts { (numbers.now.count ≡ noted.now.count) × (noted.now.count ≤ 1024) × (3 * noted.now.count ≤ length notes.old) }
    requires all { All (λ m. m.0 < mapping.now.elements.count) (zip (words_of noted.now) (words_of numbers.now)) }
    ensures { NotesSettled mapping.now.elements.count mapping.now.elements.table.now mapping.now.elements.source.now mapping.now.map.now (zip (words_of noted.now) (words_of numbers.now)) noted.now.count notes.old notes.new result }
{
    for i in 0..noted.count {
        let e = plan_upmap::upmap_element(mapping, noted.get(i))?;
        words::store(
            notes,
            run_annotations::NOTE_WORDS * i,
            &[e + 1, numbers.get(i), i],
        );
    }
    Ok(())
}
