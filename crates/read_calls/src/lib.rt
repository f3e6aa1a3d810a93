// One call: what its word says, and its judgement by what the element table tells, for a batch's calls and for rewritten ones.
// Bounds of one number and an index of what is read stand as clauses: a value around each would be no plainer than its bound.
#![tactic(auto)]

ghost use Rattle.std.specs.Prelude.{◌≡◌, ◌+◌, ◌*◌, ◌≤◌, ◌<◌, length};
ghost use mathlib.Core.List.{head_d};
ghost use Rattle.words.specs.List.{words_of};
ghost use Rattle.definition.specs.Refusals.{operation_of, count_of, rule_of};
ghost use Rattle.read_element_table.specs.Held.{view_of};
ghost use Rattle.read_calls.specs.Fits.{word_fits, call_fits, run_fits};

use read_element_table::{CHILD, Elements, PARENT, entry, is_node, is_root};
use words::WordList;

// What a call asks for, by the paper's numbers. A call word may hold any number, so what is read of one stays a number, compared with these.
#[derive(Clone, Copy, Debug, PartialEq, Eq)]
pub enum Operation {
    FirstChild = 0,
    After = 1,
    Replace = 2,
    Delete = 3,
    ReplaceWithMany = 4,
    ReplaceAll = 5,
}

// A call of this number starts a further editor: it is no change, so no `Operation`.
pub const FURTHER_EDITOR: usize = 6;

// The operation of a call word.
#[tactic(auto, unfolding(definition::specs::Refusals::operation_of))]
pub fn operation_of(word: usize) -> usize
    ensures { result ≡ operation_of word }
{
    word % read_layout::OPERATIONS
}

// How many elements a call word says that the call lists.
#[tactic(auto, unfolding(definition::specs::Refusals::count_of))]
pub fn count_of(word: usize) -> usize
    ensures { result ≡ count_of word }
{
    word / read_layout::OPERATIONS % read_layout::COUNTS
}

// The number of the rule that queued a call, by its word.
#[tactic(auto, unfolding(definition::specs::Refusals::rule_of))]
pub fn rule_of(word: usize) -> usize
    ensures { result ≡ rule_of word }
{
    word / read_layout::RULE % read_layout::RULES
}

// The first of the elements that a call lists, 0 if there is none: an element that `call_fits` may be asked of too, where an option would be opened to the same.
#[tactic(auto, using(crate::proofs::Judging::first_told))]
pub fn first_listed(listed: &WordList) -> usize
    ensures { result ≡ head_d (words_of listed.now) 0 }
{
    listed.get(0)
}

// Whether `x` and `y` are children of one parent (or both roots), and `y` does not come before `x`. It asks less than `Elements` has: the two elements' words alone.
#[tactic(auto, using(crate::proofs::Judging::run_in_order, crate::proofs::Judging::run_apart))]
pub fn run_fits(table: &[u32], x: usize, y: usize) -> bool
    requires { (8 * x + 8 ≤ length table.now) × (8 * y + 8 ≤ length table.now) }
    ensures { result ≡ run_fits table.now x y }
{
    entry(table, x, PARENT) == entry(table, y, PARENT)
        && entry(table, x, CHILD) <= entry(table, y, CHILD)
}

// An operation is a number here and below, since a call word may hold any. So are the patterns: an enum's number is no pattern, and constants would write each again.

// Whether a call word names a known operation, which may list `count` elements and carry the rule number `rule`.
#[tactic(auto, using(crate::proofs::Judging::count_one, crate::proofs::Judging::count_none, crate::proofs::Judging::count_some, crate::proofs::Judging::start_alone, crate::proofs::Judging::start_lists, crate::proofs::Judging::count_any))]
pub fn word_fits(operation: usize, count: usize, rule: usize) -> bool
    ensures { result ≡ word_fits operation count rule }
{
    match operation {
        2 => count == 1,
        3 => count == 0,
        5 => 0 < count,
        FURTHER_EDITOR => count == 0 && rule == 0,
        _ => operation <= FURTHER_EDITOR,
    }
}

// What else is asked of a call of a known operation, by its target and the first listed element (any element if it lists none).
#[tactic(auto, using(crate::proofs::Judging::fits_first_child, crate::proofs::Judging::fits_editor, crate::proofs::Judging::fits_root_by, crate::proofs::Judging::fits_root, crate::proofs::Judging::fits_run, crate::proofs::Judging::fits_rest))]
pub fn call_fits(elements: &Elements, operation: usize, target: usize, first: usize) -> bool
    requires { (operation ≤ 6) × (target < elements.now.count) × (first < elements.now.count) }
    ensures { result ≡ call_fits (view_of elements.now) operation target first }
{
    match operation {
        0 => is_node(elements.source, target),
        FURTHER_EDITOR => target == 0,
        _ if is_root(elements.table, target) => operation == Operation::Replace as usize
            && is_node(elements.source, first),
        5 => run_fits(elements.table, target, first),
        _ => true,
    }
}
