// A list of splices, done in the order given on the rows and marks of one old tree. Six words a splice: number, row of its parent in the old tree, from, to,
// where its prepared rows start, how many they are. The mark of an old element is the row where it stands now.
// Bounds of one number, the order of two numbers and room in a lent slice stand as clauses: a value around each would be no plainer than its bound.
// That marks are rows stands in clauses, since they are written; `BoundedAll` and `Good` do, as splices_step says of the words of splices.
#![tactic(auto)]

ghost use Rattle.std.specs.Prelude.{◌≡◌, ◌+◌, ◌*◌, ◌^◌, ◌≤◌, ◌<◌, length, take};
ghost use Rattle.orders.specs.Lists.{All};
ghost use Rattle.splices_list.specs.Plain.{plain_word, plain};
ghost use Rattle.rows_syntax_node.specs.Rising.{Rising};
ghost use Rattle.splices_list.specs.Promises.{Listed, Good, ListedAll, Tidied, Spliced};
ghost use Rattle.splices_model.specs.Bounds.{BoundedAll, rows_to};
ghost use Rattle.splices_model.specs.SpliceList.{filled};

use rows_syntax_node::{MEASURE, ROW_WORDS, TEXT, number_from};
use splices_check::{judged, rows_to};
use splices_model::{SPLICE_WORDS, SpliceList, SpliceRefusal, Splices};
use splices_step::splice_once;
use words::NODE_KIND;

// Its splices, from the first to the last. The new number of rows. A `for`, since a turn writes rows and marks: of what a closure writes in slices that it captures
// a proof is told nothing.
fn splice_each(rows: &mut [u32], n: usize, marks: &mut [u32], list: &SpliceList) -> usize
    requires room { (3 * n + 3 * rows_to list.now.splices.words.now list.now.splices.count ≤ length rows.old) × (n + rows_to list.now.splices.words.now list.now.splices.count < 2 ^ 16) }
    requires risen { Rising marks.old }
    requires marks_below { (length marks.old < 2 ^ 16) × All (λ m. m < n) marks.old }
    requires in_bounds { BoundedAll (length marks.old) list.now.splices.words.now list.now.prepared.now list.now.splices.count }
    ensures { Listed rows.old n marks.old list.now.splices.words.now list.now.prepared.now list.now.splices.count rows.new marks.new result }
{
    let mut m = n;
    for k in 0..list.splices.count {
        m = splice_once(rows, m, marks, list, k);
    }
    m
}

// A list that is judged well, from the old tree on. The new number of rows.
fn splice_list(rows: &mut [u32], marks: &mut [u32], list: &SpliceList) -> usize
    requires { Good rows.old marks.old list.now.splices.words.now list.now.prepared.now list.now.splices.count }
    ensures { ListedAll rows.old marks.old list.now.splices.words.now list.now.prepared.now list.now.splices.count rows.new marks.new result }
{
    let e = marks.len();
    number_from(marks, 0);
    splice_each(rows, e, marks, list)
}

// The third word of a row, 0 where it tells nothing: in a node's row, and in that of a token without text.
#[tactic(auto, unfolding(crate::specs::Plain::plain_word))]
fn plain_word(k: u32, m: u32, o: u32) -> u32
    ensures { result ≡ plain_word k m o }
{
    if NODE_KIND <= k as usize || m == 0 {
        return 0;
    }
    o
}

// Such third words in each of the first `n` rows. By the number of each row: tried with `chunks_exact_mut`, but once that loan is over the goal names a slice of which
// a proof knows how long it is, and none of its words.
fn make_plain(rows: &mut [u32], n: usize)
    requires { (3 * n ≤ length rows.old) × (n < 2 ^ 16) }
    ensures { rows.new ≡ plain n rows.old }
{
    for i in 0..n {
        let at = ROW_WORDS * i;
        rows[at + TEXT] = plain_word(rows[at], rows[at + MEASURE], rows[at + TEXT]);
    }
}

// The first `n` rows with such third words, and zeros behind them, up to the word `to`.
#[tactic(auto, using(crate::proofs::Turns::tidied))]
fn tidy(rows: &mut [u32], n: usize, to: usize)
    requires { (3 * n ≤ to) × (to ≤ length rows.old) × (n < 2 ^ 16) }
    ensures { rows.new ≡ filled (take (3 * n) (plain n rows.old)) to rows.old }
{
    make_plain(rows, n);
    let from = ROW_WORDS * n;
    rows[from..to].fill(0);
}

// A list that is judged well, done and tidied: zeros stand behind the rows that are left, as far as the list could use rows. The new number of rows.
fn splice_tidy(rows: &mut [u32], marks: &mut [u32], list: &SpliceList) -> usize
    requires { Good rows.old marks.old list.now.splices.words.now list.now.prepared.now list.now.splices.count }
    ensures { Tidied rows.old marks.old list.now.splices.words.now list.now.prepared.now list.now.splices.count rows.new marks.new result }
{
    let used = ROW_WORDS * (marks.len() + rows_to(&list.splices));
    let n = splice_list(rows, marks, list);
    tidy(rows, n, used);
    n
}

// All splices of the list, in the order given, on the old tree that the first rows tell, one row for each mark: the first refusal (docs/WORK.md) with nothing
// changed, or the number of rows of the new tree. The rows are then those of the new tree, where a third word that tells nothing is 0; zeros stand behind them as
// far as the list could use rows.
pub fn splice_all<'a>(
    rows: &mut [u32],
    marks: &mut [u32],
    splices: &'a [u32],
    prepared: &'a [u32],
) -> Result<usize, SpliceRefusal>
    ensures { Spliced rows.old marks.old splices.now prepared.now rows.new marks.new result }
{
    let c = splices.len() / SPLICE_WORDS;
    judged(rows, marks.len(), splices, prepared, c)?;
    let each = Splices {
        count: c,
        words: splices,
    };
    let list = SpliceList {
        splices: each,
        prepared,
    };
    Ok(splice_tidy(rows, marks, &list))
}
