// Lines 6, 16 and 7: the calls, the mappings and the notes of a batch, judged by what the element table tells. Their words are read by number, and so two lists
// in step: words in bytes have no iterator, and one of our own would need its laws proved for zip, all and map.
// That two lists are of one length stands as a clause: call words are asked by themselves too (`lists_fit`), and each promise speaks of `zip` of the two, to which a value
// of both would have to unfold.
#![tactic(auto)]

ghost use Rattle.std.specs.Prelude.{◌≡◌, not, leb};
ghost use mathlib.Core.List.{zip};
ghost use Rattle.words.specs.List.{words_of};
ghost use Rattle.definition.specs.Basics.{any};
ghost use Rattle.definition.specs.Refusals.{count_of, call_of, wrong_call, wrong_mapping};
ghost use Rattle.read_element_table.specs.Held.{view_of};
ghost use Rattle.read_names.specs.Called.{word_too_many, calls_fit};
ghost use Rattle.read_names.specs.Noted.{note_wrong};

use read_calls::Operation;
use read_element_table::{Elements, is_node, is_root};
use words::WordList;

// The most elements that a call may list, a run's end not counted.
pub const MOST_LISTED: usize = 41;

// Whether the words are all below `n`. Beside write_layout's, which has a slice: a function over what gives the words would be longer than this line.
fn all_below(listed: &WordList, n: usize) -> bool
    ensures { result ≡ not (any (leb n) (words_of listed.now)) }
{
    (0..listed.count).all(|i| listed.get(i) < n)
}

// Whether a call that lists these elements is as line 6 asks.
#[tactic(auto, using(crate::proofs::Calling::wrong_word, crate::proofs::Calling::wrong_target, crate::proofs::Calling::wrong_listed, crate::proofs::Calling::call_judged))]
fn call_stands(listed: &WordList, word: usize, target: usize, elements: &Elements) -> bool
    requires { listed.now.count ≡ count_of word }
    ensures { result ≡ not (wrong_call (view_of elements.now) (call_of word target (words_of listed.now))) }
{
    let operation = read_calls::operation_of(word);
    let rule = read_calls::rule_of(word);
    if !read_calls::word_fits(operation, listed.count, rule) {
        return false;
    }
    if elements.count <= target {
        return false;
    }
    if !all_below(listed, elements.count) {
        return false;
    }
    let first = read_calls::first_listed(listed);
    read_calls::call_fits(elements, operation, target, first)
}

// Line 6: every call takes its count of the listed elements, stands as it should, and none is left. A `for`: each call's own elements start where those before end, so a
// turn carries a number and may leave.
#[tactic(auto, using(crate::proofs::Calling::calling_start, crate::proofs::Calling::calling_short, crate::proofs::Calling::calling_next, crate::proofs::Calling::calling_end))]
pub fn calls_fit(
    calls: &WordList,
    targets: &WordList,
    listed: &WordList,
    elements: &Elements,
) -> bool
    requires { targets.now.count ≡ calls.now.count }
    ensures { result ≡ calls_fit (view_of elements.now) (zip (words_of calls.now) (words_of targets.now)) (words_of listed.now) }
{
    let mut taken = 0;
    for i in 0..calls.count {
        let word = calls.get(i);
        let target = targets.get(i);
        let count = read_calls::count_of(word);
        if listed.count - taken < count {
            return false;
        }
        let own = listed.part(taken, count);
        if !call_stands(&own, word, target, elements) {
            return false;
        }
        taken += count;
    }
    taken == listed.count
}

// Whether a call lists no more than it may.
#[tactic(auto, using(crate::proofs::Calling::run_few, crate::proofs::Calling::others_few))]
fn lists_few(word: usize) -> bool
    ensures { result ≡ not (word_too_many word) }
{
    let operation = read_calls::operation_of(word);
    let count = read_calls::count_of(word);
    if operation == Operation::ReplaceAll as usize {
        return count <= MOST_LISTED + 1;
    }
    count <= MOST_LISTED
}

// 16, of the call words: by themselves, since 6 of a later call comes before 16 of an earlier one.
pub fn lists_fit(calls: &WordList) -> bool
    ensures { result ≡ not (any word_too_many (words_of calls.now)) }
{
    (0..calls.count).all(|i| lists_few(calls.get(i)))
}

// Whether a mapping names two nodes, the output no root.
fn mapping_fits(elements: &Elements, input: usize, output: usize) -> bool
    ensures { result ≡ not (wrong_mapping (view_of elements.now) (input, output)) }
{
    input < elements.count
        && output < elements.count
        && is_node(elements.source, input)
        && is_node(elements.source, output)
        && !is_root(elements.table, output)
}

// Line 7, of the mappings.
pub fn mappings_fit(inputs: &WordList, outputs: &WordList, elements: &Elements) -> bool
    requires { outputs.now.count ≡ inputs.now.count }
    ensures { result ≡ not (any (wrong_mapping (view_of elements.now)) (zip (words_of inputs.now) (words_of outputs.now))) }
{
    (0..inputs.count).all(|i| mapping_fits(elements, inputs.get(i), outputs.get(i)))
}

// Whether a note names one of `n` elements and is not numbered 0.
#[tactic(auto, unfolding(crate::specs::Noted::note_wrong))]
fn note_fits(n: usize, element: usize, number: usize) -> bool
    ensures { result ≡ not (note_wrong n (element, number)) }
{
    element < n && number != 0
}

// Line 7, of the notes.
pub fn notes_fit(noted: &WordList, numbers: &WordList, n: usize) -> bool
    requires { numbers.now.count ≡ noted.now.count }
    ensures { result ≡ not (any (note_wrong n) (zip (words_of noted.now) (words_of numbers.now))) }
{
    (0..noted.count).all(|i| note_fits(n, noted.get(i), numbers.get(i)))
}
