// The surviving elements of tree 0 as pairs (document 02, Note 11), from the marks and the rows that a run leaves.
// Bounds of one number, an index of what is read and room in a lent slice stand as clauses: a value around each would be no plainer than its bound.
#![tactic(auto)]

ghost use Rattle.std.specs.Prelude.{◌≡◌, List, ℕ, ◌+◌, ◌*◌, ◌^◌, ◌≤◌, ◌<◌, length};
ghost use Rattle.std.proofs.Math.Seq.{paste};
ghost use Rattle.rows_model.specs.Row.{first_rows};
ghost use Rattle.promises.specs.Keeping.{pair_bytes};
ghost use Rattle.promises.specs.Serving.{Tells};
ghost use Rattle.kept_rows.specs.Pairs.{pair_of, pairs_from, kept_rows};
ghost use Rattle.kept_rows.specs.Promises.{PairWritten, tell_pairs};

use finish_model::{first_tree, number_at};
use promises::Told;
use refusals::Refusal;
use rows_syntax_node::{ROW_WORDS, Rows};
use words::write_word;

// How many of the elements with these marks survive in tree 0.
fn count_kept(marks: &[u32], end: usize) -> usize
    requires { length marks.now < 2 ^ 16 }
    ensures { (result ≡ length (pairs_from end 0 marks.now)) × (result < 2 ^ 16) }
{
    marks
        .iter()
        .filter(|mark| number_at(**mark as usize, end).is_some())
        .count()
}

// The pair of the element `old` with this mark, if there is one: its old number is written at `olds`, its new one at `news`. How many bytes each has.
fn write_pair(b: &mut [u8], olds: usize, news: usize, old: usize, mark: usize, end: usize) -> usize
    requires { (olds + 4 * length (pair_of end old mark) ≤ length b.old) × (news + 4 * length (pair_of end old mark) ≤ length b.old) }
    ensures { PairWritten (pair_of end old mark) olds news b.old b.new result }
{
    match number_at(mark, end) {
        None => 0,
        Some(new) => {
            write_word(b, olds, old);
            write_word(b, news, new);
            4
        }
    }
}

// All pairs are written in one pass: the old numbers at the front, the new ones from `half` on. `to` goes on by what each pair wrote, so that a sum of the library's
// would have a closure that writes. Both halves are places in one slice, since what is promised is of all of it.
fn write_kept(b: &mut [u8], marks: &[u32], end: usize, half: usize)
    requires { (half ≡ 4 * length (pairs_from end 0 marks.now)) × (2 * half ≤ length b.old) × (length marks.now < 2 ^ 16) }
    ensures { b.new ≡ paste b.old 0 (pair_bytes (pairs_from end 0 marks.now)) (2 * half) }
{
    let mut to = 0;
    for (i, mark) in marks.iter().enumerate() {
        to += write_pair(b, to, half + to, i, *mark as usize, end);
    }
}

// The pairs of the elements with these marks, at the front of the result, or 13.
fn hand_out(marks: &[u32], end: usize, res: &mut [u8]) -> Result<Told, Refusal>
    requires { length marks.now < 2 ^ 16 }
    ensures { Tells (tell_pairs (length res.old) (pairs_from end 0 marks.now)) res.old result res.new }
{
    let count = count_kept(marks, end);
    if res.len() < 8 * count {
        return Err(Refusal::ShortResult);
    }
    write_kept(res, marks, end, 4 * count);
    Ok(Told::Bytes(8 * count))
}

// THE SURVIVING PAIRS, from the batch's own rows, which are that of the node above all its elements and theirs, the marks of the elements, and the rows of all trees as
// the run leaves them; or 13.
pub fn kept(own: &Rows, marks: &[u32], rows: &Rows, res: &mut [u8]) -> Result<Told, Refusal>
    requires { (1 ≤ own.now.count) × (own.now.count ≤ 2 ^ 12) × (own.now.count ≤ length marks.now + 1) × (1 ≤ rows.now.count) }
    ensures { (before after : List ℕ) → Tells (tell_pairs (length res.old) (kept_rows (first_rows before own.now.count own.now.words.now) (first_rows after rows.now.count rows.now.words.now) marks.now)) res.old result res.new }
{
    let old = first_tree(own).len() / ROW_WORDS;
    let end = first_tree(rows).len() / ROW_WORDS + 1;
    hand_out(&marks[..old], end, res)
}
