// Lists laid out as a batch: which can be, and each array behind the one before it.
// Bounds of one number, an index of what is read and room in a lent slice stand as clauses: a value around each would be no plainer than its bound.
// That lists are in step stands in clauses and in no field of `Lists`: a caller makes the value of any lists, and `can_be_laid` tells whether they are.
#![tactic(auto)]

ghost use Rattle.std.specs.Prelude.{◌≡◌, not, ◌++◌, ◌+◌, ◌*◌, ◌≤◌, ◌<◌, length, get_or, leb};
ghost use Rattle.definition.specs.Basics.{any};
ghost use Rattle.definition.specs.Refusals.{call_word};
ghost use Rattle.definition.specs.Words.{written};
ghost use Rattle.definition.specs.Writing.{sizes_of as sizes_told, seven_sizes, call_words, laid_out, out_of_step, unfitting, unlayable};
ghost use Rattle.read_layout.specs.Layout.{sizes_of};
ghost use Rattle.write_laws.specs.RoundTrip.{InStep};
ghost use Rattle.write_layout.specs.Appending.{Appended};
ghost use Rattle.write_layout.specs.Laying.{lists_in};

use read_layout::Sizes;

// The trees, calls, mappings and notes as lists, in the order of document 02, Note 2. They are parallel, as C lends them.
#[derive(Clone, Copy)]
pub struct Lists<'a> {
    pub trees: usize,
    pub kinds: &'a [u32],
    pub measures: &'a [u32],
    pub text: &'a [u8],
    pub operations: &'a [u32],
    pub counts: &'a [u32],
    pub rules: &'a [u32],
    pub targets: &'a [u32],
    pub listed: &'a [u32],
    pub inputs: &'a [u32],
    pub outputs: &'a [u32],
    pub noted: &'a [u32],
    pub numbers: &'a [u32],
}

// Whether each word is below `limit`.
fn all_below(s: &[u32], limit: usize) -> bool
    ensures { result ≡ not (any (leb limit) s.now) }
{
    s.iter().all(|&w| (w as usize) < limit)
}

impl Lists<'_> {
    // How much of each there is.
    #[tactic(auto, unfolding(definition::specs::Writing::sizes_of))]
    fn sizes(&self) -> Sizes
        ensures { sizes_of result ≡ sizes_told (lists_in self.now) }
    {
        Sizes {
            trees: self.trees,
            elements: self.kinds.len(),
            text: self.text.len(),
            calls: self.operations.len(),
            listed: self.listed.len(),
            mappings: self.inputs.len(),
            notes: self.noted.len(),
        }
    }

    // Whether those that are to be in step are, by their lengths.
    #[tactic(auto, unfolding(definition::specs::Writing::out_of_step, definition::specs::Writing::differ))]
    fn in_step(&self) -> bool
        ensures { result ≡ not (out_of_step (lists_in self.now)) }
    {
        self.kinds.len() == self.measures.len()
            && self.operations.len() == self.counts.len()
            && self.operations.len() == self.rules.len()
            && self.operations.len() == self.targets.len()
            && self.inputs.len() == self.outputs.len()
            && self.noted.len() == self.numbers.len()
    }

    // Whether each operation, each count and each rule number fits its part of a call word.
    #[tactic(auto, unfolding(definition::specs::Writing::unfitting))]
    fn parts_fit(&self) -> bool
        ensures { result ≡ not (unfitting (lists_in self.now)) }
    {
        all_below(self.operations, read_layout::OPERATIONS)
            && all_below(self.counts, read_layout::COUNTS)
            && all_below(self.rules, read_layout::RULES)
    }

    // The word of call `i`.
    #[tactic(auto, unfolding(definition::specs::Refusals::call_word))]
    fn call_word(&self, i: usize) -> usize
        requires { (i < length self.now.operations.now) × (i < length self.now.counts.now) × (i < length self.now.rules.now) }
        ensures { result ≡ call_word (get_or self.now.operations.now i 0) (get_or self.now.counts.now i 0) (get_or self.now.rules.now i 0) }
    {
        words::word(self.operations, i)
            + read_layout::OPERATIONS * words::word(self.counts, i)
            + read_layout::RULE * words::word(self.rules, i)
    }
}

// Whether lists can be laid out. No sum of lengths is made.
#[tactic(auto, unfolding(definition::specs::Writing::unlayable))]
pub fn can_be_laid(lists: &Lists) -> bool
    ensures { result ≡ not (unlayable (lists_in lists.now)) }
{
    lists.in_step() && read_layout::within_limits(lists.sizes()) && lists.parts_fit()
}

// ── The arrays, one behind the other: by their place, since the draft is one lent slice, longer than what is in use (fixed memory) ──

// The bytes of the words `s` go behind the first `at` bytes; how many there are then.
fn append_words(draft: &mut [u8], at: usize, s: &[u32]) -> usize
    requires { at + 4 * length s.now ≤ length draft.old }
    ensures { Appended draft.old at (written s.now) draft.new result }
{
    words::write_words(draft, at, s);
    at + 4 * s.len()
}

// Two arrays, one behind the other.
#[tactic(auto, using(crate::proofs::Ways::room_next, crate::specs::Appending::appended_on))]
fn append_two(draft: &mut [u8], at: usize, s: &[u32], t: &[u32]) -> usize
    requires { at + 4 * length s.now + 4 * length t.now ≤ length draft.old }
    ensures { Appended draft.old at (written s.now ++ written t.now) draft.new result }
{
    let next = append_words(draft, at, s);
    append_words(draft, next, t)
}

// The seven sizes come first.
fn append_sizes(draft: &mut [u8], lists: &Lists) -> usize
    requires in_step { InStep (lists_in lists.now) }
    requires in_bounds { 28 ≤ length draft.old }
    ensures { Appended draft.old 0 (written (seven_sizes (sizes_told (lists_in lists.now)))) draft.new result }
{
    let s = lists.sizes();
    let seven = [
        s.trees as u32,
        s.elements as u32,
        s.text as u32,
        s.calls as u32,
        s.listed as u32,
        s.mappings as u32,
        s.notes as u32,
    ];
    append_words(draft, 0, &seven)
}

// The call words, behind the first `at` bytes. Beside `finish_result::write_column`: over a closure each item would owe what is said here of the word of a call.
fn append_calls(draft: &mut [u8], at: usize, lists: &Lists) -> usize
    requires operations_len { (length lists.now.operations.now ≡ length lists.now.counts.now) × (length lists.now.operations.now ≡ length lists.now.rules.now) }
    requires operations_in_bounds { at + 4 * length lists.now.operations.now ≤ length draft.old }
    ensures { Appended draft.old at (written (call_words lists.now.operations.now lists.now.counts.now lists.now.rules.now)) draft.new result }
{
    let n = lists.operations.len();
    for i in 0..n {
        words::write_word(draft, at + 4 * i, lists.call_word(i));
    }
    at + 4 * n
}

// Call words, targets and listed elements.
fn append_queue(draft: &mut [u8], at: usize, lists: &Lists) -> usize
    requires operations_len { (length lists.now.operations.now ≡ length lists.now.counts.now) × (length lists.now.operations.now ≡ length lists.now.rules.now) }
    requires listed_in_bounds { at + 4 * length lists.now.operations.now + 4 * length lists.now.targets.now + 4 * length lists.now.listed.now ≤ length draft.old }
    ensures { Appended draft.old at (written (call_words lists.now.operations.now lists.now.counts.now lists.now.rules.now) ++ (written lists.now.targets.now ++ written lists.now.listed.now)) draft.new result }
{
    let next = append_calls(draft, at, lists);
    append_two(draft, next, lists.targets, lists.listed)
}

// Mappings and notes.
#[tactic(auto, using(crate::proofs::Ways::room_two, crate::specs::Appending::appended_on))]
fn append_names(draft: &mut [u8], at: usize, lists: &Lists) -> usize
    requires { at + 4 * length lists.now.inputs.now + 4 * length lists.now.outputs.now + 4 * length lists.now.noted.now + 4 * length lists.now.numbers.now ≤ length draft.old }
    ensures { Appended draft.old at ((written lists.now.inputs.now ++ written lists.now.outputs.now) ++ (written lists.now.noted.now ++ written lists.now.numbers.now)) draft.new result }
{
    let next = append_two(draft, at, lists.inputs, lists.outputs);
    append_two(draft, next, lists.noted, lists.numbers)
}

// The text ends it.
#[tactic(auto, using(crate::proofs::Ways::text_appended))]
fn append_text(draft: &mut [u8], at: usize, text: &[u8]) -> usize
    requires { at + length text.now ≤ length draft.old }
    ensures { Appended draft.old at text.now draft.new result }
{
    words::copy_in(draft, at, text);
    at + text.len()
}

// The batch is laid out at the front of the draft; how many bytes it has.
pub fn lay_out(draft: &mut [u8], lists: &Lists) -> usize
    requires in_step { InStep (lists_in lists.now) }
    requires in_bounds { 49180 ≤ length draft.old }
    ensures { Appended draft.old 0 (laid_out (lists_in lists.now)) draft.new result }
{
    let trees_at = append_sizes(draft, lists);
    let calls_at = append_two(draft, trees_at, lists.kinds, lists.measures);
    let names_at = append_queue(draft, calls_at, lists);
    let text_at = append_names(draft, names_at, lists);
    append_text(draft, text_at, lists.text)
}
