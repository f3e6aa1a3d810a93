// The order in which changes run: dependents before their owner, siblings from the highest key to the lowest.
// Bounds of one number and room in a lent slice stand as clauses: a value around each would be no plainer than its bound.
// That places are ranked and arrays linked stands in clauses too: one call fills what is lent to it, the next one reads it.
#![tactic(auto)]

ghost use Rattle.std.specs.Prelude.{◌≡◌, ◌++◌, ◌+◌, ◌^◌, ◌≤◌, ◌<◌, length, take, drop, replicate};
ghost use Rattle.plan_sort.specs.Sorting.{ranked_places};
ghost use Rattle.plan_postorder.specs.Order.{running_places};
ghost use Rattle.plan_postorder.specs.Links.{OwnerOf, Links, owned_by, linked_to, dependents};

use record_changes::{Fate, field};
use words::word;

// Rust: PlanEntry::parent. The list of `first` into which the change at place `k` is linked: that of its owner, index + 1, or list 0 of a change that has no
// owner. None of a change that never runs.
#[tactic(auto, using(crate::proofs::Linking::owner_none, crate::proofs::Linking::owner_discarded, crate::proofs::Linking::owner_dependent, crate::proofs::Linking::owner_outside))]
fn owner_of(rows: &[u32], k: usize) -> Option<usize>
    requires { k < 2 ^ 32 }
    ensures { OwnerOf rows.now k result }
{
    let fate = field(rows, k, record_changes::FATE);
    if fate == Fate::Own as usize {
        return Some(0);
    }
    if fate != Fate::Dependent as usize {
        return None;
    }
    let owner = field(rows, k, record_changes::OWNER);
    if owner < 256 {
        return Some(owner + 1);
    }
    None
}

// Rust: `children` and `roots` in EditPlan::build. The ranked changes of each owner are linked, from the last to the first: `first` has the first one of
// an owner and `next` the one after a change, index + 1; 0 = none. Links are made once, so that no owner looks through all changes.
// They stand in two arrays, as numbers: there is no heap (fixed memory).
fn link_dependents(rows: &[u32], ranked: &[u32], first: &mut [u32; 257], next: &mut [u32; 256])
    requires ranked { (length ranked.now ≤ 256) × (ranked.now ≡ ranked_places rows.now (length ranked.now)) }
    requires unlinked { (first.old ≡ replicate 257 0) × (length next.old ≡ 256) }
    ensures { Links (owned_by rows.now ranked.now) first.new next.new }
{
    for place in ranked.iter().rev() {
        let k = *place as usize;
        let Some(owner) = owner_of(rows, k) else {
            continue;
        };
        next[k] = first[owner];
        first[owner] = (k + 1) as u32;
    }
}

// Rust: EditPlan::append_postorder. The changes in list `owner` (0 of those that have none) are appended to `running` at `at`, each after its own dependents: these
// edit the replacement before it goes in. Of all changes `left` are not yet visited, which falls with each call. Where the next one is to be appended.
// A walk along links has no range to count over: its loop stays.
fn append_postorder(
    first: &[u32; 257],
    next: &[u32; 256],
    owner: usize,
    left: usize,
    running: &mut [u32],
    at: usize,
) -> usize
    requires links { Links (linked_to first.now next.now) first.now next.now }
    requires owner_bound { (owner ≤ 256) × (left ≤ 256) × (at + left ≤ length running.old) × (length (dependents first.now next.now owner) ≤ left) }
    ensures value { result ≡ at + length (dependents first.now next.now owner) }
    ensures running_after { running.new ≡ take at running.old ++ (dependents first.now next.now owner ++ drop result running.old) }
{
    let mut end = at;
    let mut link = word(first, owner);
    while let Some(k) = link.checked_sub(1) {
        let unvisited = left - (end - at);
        let place = append_postorder(first, next, k + 1, unvisited - 1, running, end);
        running[place] = k as u32;
        end = place + 1;
        link = word(next, k);
    }
    end
}

// The places of the changes, as many as `ranked` holds, in the order in which they run are written to `running`; `ranked` holds them as siblings run. How many
// run.
pub fn running_order(rows: &[u32], ranked: &mut [u32], running: &mut [u32]) -> usize
    requires { (length ranked.old ≤ 256) × (length ranked.old ≤ length running.old) }
    ensures value { result ≡ length (running_places rows.now (length ranked.old)) }
    ensures running_after { running.new ≡ running_places rows.now (length ranked.old) ++ drop result running.old }
    ensures ranked_after { ranked.new ≡ ranked_places rows.now (length ranked.old) }
{
    plan_sort::rank_changes(rows, ranked);
    // Words, index + 1: the model's lists hold numbers, into which options would be turned in each clause.
    let mut first = [0u32; 257];
    let mut next = [0u32; 256];
    link_dependents(rows, ranked, &mut first, &mut next);
    append_postorder(&first, &next, 0, ranked.len(), running, 0)
}
