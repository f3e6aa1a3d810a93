// THE CHECKER of another editor's output (document 02, Note 11).
// What `read_both`, `judge_claims` and `hold` ask stands as clauses: the tests before each have found it, and it is no fact of `Claims` or `Work`, which a caller makes of any slices.
#![tactic(auto)]

ghost use Rattle.std.specs.Prelude.{◌≡◌, ◌≤◌, length, ltb};
ghost use mathlib.Core.List.{zip};
ghost use Rattle.definition.specs.Basics.{refuse};
ghost use Rattle.definition.specs.Answers.{too_short};
ghost use Rattle.promises.specs.Slices.{lengths, zeroed};
ghost use Rattle.refusals.specs.Numbers.{answered};
ghost use Rattle.check_claim.specs.Held.{claimed};
ghost use Rattle.check_claim.specs.Lent.{held, Same, AsLong};
ghost use Rattle.check_claim.specs.Promise.{checker_needs, Checks, told};
ghost use Rattle.check_clauses.specs.Asked.{Ready};
ghost use Rattle.check_model.specs.Clauses.{judged_by};
ghost use Rattle.check_model.specs.Pairing.{Below};
ghost use Rattle.check_claim.specs.Judging.{answer_of, big_sizes, sizes_refusal, ReadsBoth, Telling, WritesClaims, naming, judging};

mod claims;
mod work;

use check_clauses::{Pairs, Side};
pub use claims::{Claims, Tree};
use refusals::Refusal;
pub use work::Work;

// Whether the output is accepted.
#[derive(Clone, Copy, Debug, PartialEq, Eq)]
pub enum Verdict {
    Accepted,
    Rejected,
}

// Whether a work slice is shorter than its length in docs/WORK.md. It and `clear_work` stand beside those of `promises` and `write_batch`: each is of its own slices by their names.
fn too_short(work: &Work) -> bool
    ensures { result ≡ too_short (lengths checker_needs (held work.now)) }
{
    [
        (work.before.len(), 16384),
        (work.after.len(), 16384),
        (work.partners.len(), 4096),
        (work.marks.len(), 4096),
    ]
    .iter()
    .any(|lent| lent.0 < lent.1)
}

// Every work slice becomes zeros.
#[tactic(auto, unfolding(promises::specs::Slices::zeroed, promises::specs::Slices::zeros))]
fn clear_work(work: &mut Work)
    ensures same { Same work.old work.new }
    ensures zeros { held work.new ≡ zeroed (held work.old) }
{
    work.before.fill(0);
    work.after.fill(0);
    work.partners.fill(0);
    work.marks.fill(0);
}

// 3, of a tree.
#[tactic(auto, unfolding(crate::specs::Judging::big_sizes))]
fn too_big(tree: &Tree) -> bool
    ensures { result ≡ big_sizes (length tree.now.kinds.now) (length tree.now.measures.now) (length tree.now.text.now) }
{
    4096 < tree.kinds.len() || 4096 < tree.measures.len() || 16384 < tree.text.len()
}

// 3 and 4.
#[tactic(auto, unfolding(crate::specs::Judging::sizes_refusal, definition::specs::Basics::refuse, refusals::specs::Numbers::answered, refusals::specs::Numbers::number))]
fn size_refusal(claims: &Claims) -> Result<(), Refusal>
    ensures { let number = sizes_refusal (length claims.now.old.kinds.now) (length claims.now.old.measures.now) (length claims.now.old.text.now) (length claims.now.new.kinds.now) (length claims.now.new.measures.now) (length claims.now.new.text.now) (length claims.now.olds.now) (length claims.now.news.now) in answered result ≡ refuse number (ltb 0 number) }
{
    if too_big(&claims.old) || too_big(&claims.new) {
        return Err(Refusal::Size);
    }
    if claims.old.kinds.len() != claims.old.measures.len()
        || claims.new.kinds.len() != claims.new.measures.len()
        || claims.olds.len() != claims.news.len()
    {
        return Err(Refusal::Length);
    }
    Ok(())
}

// 5, of both trees; where it accepts, the words of their elements stand in the tables.
fn read_both(claims: &Claims, work: &mut Work) -> bool
    requires old_measures_len { (length claims.now.old.measures.now ≡ length claims.now.old.kinds.now) × (length claims.now.old.kinds.now ≤ 4096) × (length claims.now.old.text.now ≤ 16384) × (16384 ≤ length work.old.before.now) }
    requires new_measures_len { (length claims.now.new.measures.now ≡ length claims.now.new.kinds.now) × (length claims.now.new.kinds.now ≤ 4096) × (length claims.now.new.text.now ≤ 16384) × (16384 ≤ length work.old.after.now) }
    ensures same { Same work.old work.new }
    ensures long { AsLong work.old work.new }
    ensures reads { ReadsBoth (zip claims.now.old.kinds.now claims.now.old.measures.now) (length claims.now.old.text.now) (zip claims.now.new.kinds.now claims.now.new.measures.now) (length claims.now.new.text.now) result work.new.before.now work.new.after.now }
{
    let before = &claims.old;
    let after = &claims.new;
    check_table::read_tree(
        before.kinds,
        before.measures,
        before.text.len(),
        work.before,
    ) && check_table::read_tree(after.kinds, after.measures, after.text.len(), work.after)
}

// 19: whether a claim names no element.
#[tactic(auto, using(crate::specs::Checked::any_append), unfolding(crate::specs::Judging::naming))]
fn names_none(claims: &Claims) -> bool
    ensures { result ≡ naming (length claims.now.old.kinds.now) (length claims.now.new.kinds.now) claims.now.olds.now claims.now.news.now claims.now.changed.now }
{
    check_clauses::beyond(claims.olds, claims.old.kinds.len())
        || check_clauses::beyond(claims.news, claims.new.kinds.len())
        || check_clauses::beyond(claims.changed, claims.new.kinds.len())
}

// The partners and the marks of the new elements; false where one is paired twice. It takes the two slices that it writes.
fn write_claims(pairs: &Pairs, changed: &[u32], partners: &mut [u32], marks: &mut [u32]) -> bool
    requires { Below 4096 pairs.now.olds.now × Below (length partners.old) pairs.now.news.now × Below (length marks.old) changed.now }
    ensures { WritesClaims (zip pairs.now.olds.now pairs.now.news.now) changed.now (length partners.old) (length marks.old) result partners.new marks.new }
{
    partners.fill(0);
    marks.fill(0);
    check_clauses::mark_all(changed, marks);
    check_clauses::pair_up(pairs, partners)
}

// Whether all clauses hold, where partners and marks are written.
fn hold(claims: &Claims, pairs: &Pairs, work: &Work) -> bool
    requires { Ready pairs.now.olds.now pairs.now.news.now work.now.before.now work.now.after.now (length claims.now.old.text.now) (length claims.now.new.text.now) (length work.now.partners.now) (length work.now.marks.now) (length claims.now.new.kinds.now) }
    ensures { result ≡ judged_by work.now.before.now work.now.after.now claims.now.old.text.now claims.now.new.text.now (length claims.now.new.kinds.now) (zip pairs.now.olds.now pairs.now.news.now) work.now.partners.now work.now.marks.now }
{
    let before = Side {
        table: work.before,
        text: claims.old.text,
    };
    let after = Side {
        table: work.after,
        text: claims.new.text,
    };
    let n = claims.new.kinds.len();
    check_clauses::judge(pairs, &before, &after, work.partners, work.marks, n)
}

// 19, then whether all clauses hold, of trees whose words stand in the tables.
fn judge_claims(claims: &Claims, work: &mut Work) -> Result<Verdict, Refusal>
    requires { (length claims.now.news.now ≡ length claims.now.olds.now) × Telling work.old.before.now (length claims.now.old.text.now) (length claims.now.old.kinds.now) × Telling work.old.after.now (length claims.now.new.text.now) (length claims.now.new.kinds.now) × (4096 ≤ length work.old.partners.now) × (4096 ≤ length work.old.marks.now) }
    ensures same { Same work.old work.new }
    ensures long { AsLong work.old work.new }
    ensures judges { answer_of result ≡ judging work.old.before.now work.old.after.now claims.now.old.text.now claims.now.new.text.now (length claims.now.old.kinds.now) (length claims.now.new.kinds.now) (length work.old.partners.now) (length work.old.marks.now) claims.now.olds.now claims.now.news.now claims.now.changed.now }
{
    if names_none(claims) {
        return Err(Refusal::ClaimedName);
    }
    let pairs = Pairs {
        olds: claims.olds,
        news: claims.news,
    };
    if write_claims(&pairs, claims.changed, work.partners, work.marks)
        && hold(claims, &pairs, work)
    {
        Ok(Verdict::Accepted)
    } else {
        Ok(Verdict::Rejected)
    }
}

// 1, 3, 4, 5 and 19, then accepted or rejected.
fn check_lists(claims: &Claims, work: &mut Work) -> Result<Verdict, Refusal>
    ensures same { Same work.old work.new }
    ensures long { AsLong work.old work.new }
    ensures tells { answer_of result ≡ told (held work.old) (claimed claims.now) }
{
    if too_short(work) {
        return Err(Refusal::ShortWork);
    }
    size_refusal(claims)?;
    if !read_both(claims, work) {
        return Err(Refusal::Spelling);
    }
    judge_claims(claims, work)
}

// THE CHECKER: whether the new tree, with these pairs of kept elements (an old number and a new one each) and these changed elements, is an edit of the old tree.
// The work slices end as zeros.
pub fn check(claims: &Claims, work: &mut Work) -> Result<Verdict, Refusal>
    ensures same { Same work.old work.new }
    ensures checks { Checks (claimed claims.now) (held work.old) (answer_of result) (held work.new) }
{
    let verdict = check_lists(claims, work);
    clear_work(work);
    verdict
}
