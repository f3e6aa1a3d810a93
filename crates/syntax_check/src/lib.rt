// The checker for C and Rust (document 02, Note 11): a slice is a pointer and a length, a verdict is one number.
// Which refusals can come stands as a clause: `Refusal` is any, and the promise of `check` says which.
#![tactic(auto)]

ghost use Rattle.std.specs.Prelude.{◌≡◌, ◌∷◌, []};
ghost use Rattle.promises_read.specs.Refused.{By};
ghost use Rattle.check_claim.specs.Judging.{answer_of};
ghost use Rattle.check_claim.specs.Promise.{claims_in};
ghost use Rattle.syntax_check.specs.Returned.{verdict_number, check_numbers, ReturnsVerdict};

use check_claim::{Claims, Tree, Verdict, Work};
use refusals::Refusal;

// The number of a verdict.
#[tactic(auto, using(crate::proofs::Cases::few, crate::proofs::Cases::tells_refused, crate::proofs::Cases::tells_accepted, crate::proofs::Cases::tells_rejected))]
fn verdict_number(verdict: Result<Verdict, Refusal>) -> i64
    requires { By check_numbers (answer_of verdict) }
    ensures { result ≡ verdict_number (answer_of verdict) }
{
    match verdict {
        Err(refusal) => edit_numbers::negative(refusal.number()),
        Ok(Verdict::Accepted) => 1,
        Ok(Verdict::Rejected) => 0,
    }
}

// THE CHECKER: 1 if the new tree, with these pairs of kept elements (an old number and a new one each) and these changed elements, is an edit of the old tree; 0 if it is
// not; or a refusal's number (1, 3, 4, 5 or 19) with a minus. The last four are work slices, which end as zeros.
// Over 40 lines by its thirteen parameters, which C lends apart.
#[unsafe(no_mangle)]
pub extern "C" fn syntax_check(
    old_kinds: &[u32],
    old_measures: &[u32],
    old_text: &[u8],
    new_kinds: &[u32],
    new_measures: &[u32],
    new_text: &[u8],
    olds: &[u32],
    news: &[u32],
    changed: &[u32],
    old: &mut [u32],
    new: &mut [u32],
    partners: &mut [u32],
    marks: &mut [u32],
) -> i64
    ensures { ReturnsVerdict (claims_in old_kinds.now old_measures.now old_text.now new_kinds.now new_measures.now new_text.now olds.now news.now changed.now) (old.old ∷ new.old ∷ partners.old ∷ marks.old ∷ []) result (old.new ∷ new.new ∷ partners.new ∷ marks.new ∷ []) }
{
    let claims = Claims {
        old: Tree {
            kinds: old_kinds,
            measures: old_measures,
            text: old_text,
        },
        new: Tree {
            kinds: new_kinds,
            measures: new_measures,
            text: new_text,
        },
        olds,
        news,
        changed,
    };
    let mut work = Work {
        before: old,
        after: new,
        partners,
        marks,
    };
    let verdict = check_claim::check(&claims, &mut work);
    verdict_number(verdict)
}
