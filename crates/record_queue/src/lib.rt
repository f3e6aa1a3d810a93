// Recording: from the calls of an accepted batch to change rows, editor after editor. Rows come with a place or a count: record_changes says why.
// Bounds of one number, an index of what is read, room in a lent slice and the order of two numbers stand as clauses: a value around each would be no plainer than its bound.
// That two lists are of one length is a clause, as read_names says. So is what calls name (`Fit`, `CallFits`): it is asked by one function each, of the definition's calls, which are no value here.
#![tactic(auto)]

ghost use Rattle.std.specs.Prelude.{◌≡◌, ◌+◌, ◌*◌, ◌^◌, ◌≤◌, ◌<◌, length, drop, unwrap_or, IfSome};
ghost use mathlib.Core.List.{zip};
ghost use Rattle.words.specs.List.{words_of};
ghost use Rattle.definition.specs.Refusals.{count_of, call_of};
ghost use Rattle.read_element_table.specs.Held.{view_of};
ghost use Rattle.record_changes.specs.ChangeRow.{rows_of};
ghost use Rattle.record_changes.specs.ChangeRowLaws.{row_at};
ghost use Rattle.record_changes.specs.Numbers.{row_with, NumbersFit};
ghost use Rattle.record_changes.specs.Spots.{SpotFits};
ghost use Rattle.record_queue.specs.Queueing.{place};
ghost use Rattle.record_queue.specs.RecordedRows.{is_single, meets_single, meets_by, idle_by, change_rows, Put, RowsRecorded};
ghost use Rattle.record_queue.specs.CallList.{calls_of, Fit, CallFits, CallPut};

use read_element_table::Elements;
use record_changes::{LIST, Numbers, Operation, Spot, TARGET, WORDS};
use words::WordList;

// The rows so far: where the present editor's start, and how many there are. That it starts among them stays a clause: the loop that carries a queue from call to
// call would owe a field anew at each turn (tried).
#[derive(Clone, Copy)]
pub struct Queue {
    pub start: usize,
    pub count: usize,
}

// Whether an operation is 2 or 3: only these merge (Rust: Change::Replace, which is both).
#[tactic(auto, using(crate::proofs::Recordings::single_replace, crate::proofs::Recordings::single_delete))]
fn is_single(operation: usize) -> bool
    ensures { result ≡ is_single operation }
{
    if operation == Operation::Replace as usize {
        return true;
    }
    operation == Operation::Delete as usize
}

// Whether the row at place `k` and a later change of this target, whose operation merges, merge.
#[tactic(auto, using(crate::proofs::Recordings::meets_other, crate::proofs::Recordings::meets_target))]
fn meets(rows: &[u32], k: usize, target: usize) -> bool
    requires { (14 * k + 14 ≤ length rows.now) × (k < 2 ^ 32) }
    ensures { result ≡ meets_single target (row_at rows.now k) }
{
    // The target first: most rows differ there.
    if target != words::word(rows, WORDS * k + TARGET) {
        return false;
    }
    is_single(words::word(rows, WORDS * k))
}

// The place of the first row of the present editor that a change of this target, whose operation merges, meets.
fn single_place(rows: &[u32], q: Queue, target: usize) -> Option<usize>
    requires { (q.start ≤ q.count) × (q.count ≤ 256) × (14 * q.count ≤ length rows.now) }
    ensures { (unwrap_or result q.count ≡ q.start + place (meets_single target) (drop q.start (rows_of q.count rows.now))) × IfSome result (λ k. k < q.count) }
{
    (q.start..q.count).find(|&k| meets(rows, k, target))
}

// The place of the first row of the present editor that a change of this operation and target meets.
#[tactic(auto, using(crate::proofs::Recordings::place_neither, crate::proofs::Recordings::place_single))]
fn place_of(rows: &[u32], q: Queue, operation: usize, target: usize) -> Option<usize>
    requires { (q.start ≤ q.count) × (q.count ≤ 256) × (14 * q.count ≤ length rows.now) }
    ensures { (unwrap_or result q.count ≡ q.start + place (meets_by operation target) (drop q.start (rows_of q.count rows.now))) × IfSome result (λ k. k < q.count) }
{
    if !is_single(operation) {
        return None;
    }
    single_place(rows, q, target)
}

// Whether a later change of this operation, whose first element stands at `at` in the batch's list, has no effect on the row at place `k`, which it meets: a
// delete stays, and so does a replacement by the same element.
#[tactic(auto, using(crate::proofs::Recordings::idle_delete, crate::proofs::Recordings::idle_others, crate::proofs::Recordings::idle_deleting, crate::proofs::Recordings::idle_same))]
fn is_idle(listed: &WordList, rows: &[u32], k: usize, operation: usize, at: usize) -> bool
    requires { (14 * k + 14 ≤ length rows.now) × (k < 2 ^ 32) }
    ensures { result ≡ idle_by (words_of listed.now) operation at (row_at rows.now k) }
{
    let earlier = words::word(rows, WORDS * k);
    if earlier == Operation::Delete as usize {
        return true;
    }
    if earlier != Operation::Replace as usize {
        return false;
    }
    if operation != Operation::Replace as usize {
        return false;
    }
    listed.get(words::word(rows, WORDS * k + LIST)) == listed.get(at)
}

// Rust: SyntaxEditor::replace, SyntaxEditor::delete, which look for a replacement of the same element. A change is recorded among the rows of the present
// editor, over the one it meets unless it has no effect on that; how many rows there are then. `m`, `s` and `rule` are one row: `write_row` says why apart.
fn record_change(
    listed: &WordList,
    rows: &mut [u32],
    q: Queue,
    m: Numbers,
    s: Spot,
    rule: usize,
) -> usize
    requires { (q.start ≤ q.count) × (q.count < 256) × (14 * q.count + 14 ≤ length rows.old) × NumbersFit m × SpotFits s × (rule < 2 ^ 32) }
    ensures { Put (words_of listed.now) (row_with m s rule) q.start q.count rows.old result rows.new }
{
    let Some(k) = place_of(rows, q, m.operation, m.target) else {
        record_changes::write_row(rows, q.count, m, s, rule);
        return q.count + 1;
    };
    if is_idle(listed, rows, k, m.operation, m.list) {
        return q.count;
    }
    record_changes::write_row(rows, k, m, s, rule);
    q.count
}

// The call of a call word is recorded, whose `own` elements stand at `at` in the batch's list: the present editor's first row, and how many rows there are.
fn record_call(
    own: &WordList,
    listed: &WordList,
    at: usize,
    word: usize,
    target: usize,
    elements: &Elements,
    q: Queue,
    rows: &mut [u32],
) -> Queue
    requires call_fits { CallFits elements.now.count (words_of own.now) at target × (own.now.count ≡ count_of word) }
    requires start_le_count { (q.start ≤ q.count) × (q.count < 256) × (14 * q.count + 14 ≤ length rows.old) }
    ensures { CallPut (view_of elements.now) (words_of listed.now) at (call_of word target (words_of own.now)) q.start q.count rows.old result.start result.count rows.new }
{
    let operation = read_calls::operation_of(word);
    if operation == read_calls::FURTHER_EDITOR {
        return Queue {
            start: q.count,
            ..q
        };
    }
    let rule = read_calls::rule_of(word);
    let first = read_calls::first_listed(own);
    let c = record_changes::change_of(operation, target, at, own.count, first);
    let s = record_changes::spot_of(c, first, elements);
    let m = record_changes::numbers_of(c);
    let count = record_change(listed, rows, q, m, s, rule);
    Queue { count, ..q }
}

// Rust: SyntaxEditor::merge, which appends the queue of a further editor without merging. The calls of an accepted batch are recorded, by their call words,
// their targets and the elements that they list. How many rows there are. By number: words in bytes have no iterator, and one of our own would need its laws proved.
pub fn record_calls(
    calls: &WordList,
    targets: &WordList,
    listed: &WordList,
    elements: &Elements,
    rows: &mut [u32],
) -> usize
    requires few { (targets.now.count ≡ calls.now.count) × (calls.now.count ≤ 256) × (listed.now.count ≤ 1024) × (14 * calls.now.count ≤ length rows.old) }
    requires fit { Fit elements.now.count (zip (words_of calls.now) (words_of targets.now)) (words_of listed.now) }
    ensures { RowsRecorded calls.now.count (change_rows (view_of elements.now) (calls_of (zip (words_of calls.now) (words_of targets.now)) (words_of listed.now))) rows.old result rows.new }
{
    let mut q = Queue { start: 0, count: 0 };
    let mut taken: usize = 0;
    for i in 0..calls.count {
        let word = calls.get(i);
        let target = targets.get(i);
        let count = read_calls::count_of(word);
        let own = listed.part(taken, count);
        q = record_call(&own, listed, taken, word, target, elements, q, rows);
        taken += count;
    }
    q.count
}
