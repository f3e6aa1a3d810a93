// The lists of a load (document 02, Note 12): its trees, its calls and its notes.
// Bounds of one number and the length of a lent slice stand as clauses: a value around each would be no plainer than its bound.
#![tactic(auto)]

ghost use Rattle.std.specs.Prelude.{◌≡◌, ℕ, ◌<◌, ◌≤◌, length};
ghost use Rattle.load_laws.specs.Load.{after, along, kind_at, measure_at, byte_at};
ghost use Rattle.load_draws.specs.Called.{Called};
ghost use Rattle.load_lists.specs.Numbered.{numbered as numbered_of, passed as passed_of};
ghost use Rattle.load_lists.specs.Filled.{TreesFilled, Filled, NotesFilled};

use load_draws::{DrawnCall, call_at, drawn, first_call, next};

// How many elements tree 0 has; the root of tree 1, of tree 2, and the copy of a block in it.
const OF_TREE_0: usize = 769;

const REPLACEMENT: usize = load_draws::REPLACEMENT as usize;

const COPY: usize = load_draws::COPY as usize;

// The calls of a load as lists; the first `many` of `listed` are the elements that they list. Parallel lists, as `write_layout::Lists` takes them; `listed` has room for
// two of each call (no heap), so its count stands beside.
#[derive(Clone, Copy)]
pub struct Calls {
    pub operations: [u32; 96],
    pub counts: [u32; 96],
    pub rules: [u32; 96],
    pub targets: [u32; 96],
    pub listed: [u32; 192],
    pub many: usize,
}

// Element e's kind word.
#[tactic(auto, unfolding(load_laws::specs::Load::kind_at))]
fn kind_at(e: usize) -> u32
    ensures { result ≡ kind_at e }
{
    match e {
        0 => 0x8000_0001,
        1..OF_TREE_0 => match (e - 1) % 6 {
            0 => 2,
            1 => 0x8000_0003,
            _ => 4,
        },
        OF_TREE_0 => 0x8000_0005,
        ..REPLACEMENT => 6,
        REPLACEMENT => 0x8000_0007,
        COPY => 0x8000_0003,
        _ => 4,
    }
}

// Element e's measure.
#[tactic(auto, unfolding(load_laws::specs::Load::measure_at))]
fn measure_at(e: usize) -> u32
    ensures { result ≡ measure_at e }
{
    match e {
        0 => 256,
        1..OF_TREE_0 if (e - 1) % 6 == 1 => 4,
        OF_TREE_0 => 16,
        COPY => 4,
        _ => 1,
    }
}

// Byte t of the text.
#[tactic(auto, unfolding(load_laws::specs::Load::byte_at))]
fn byte_at(t: usize) -> u8
    requires { t < 660 }
    ensures { result ≡ byte_at t }
{
    match t {
        ..640 if t % 5 == 0 => b';',
        ..640 => b'a' + ((t / 5 + t % 5 - 1) % 26) as u8,
        640..656 => b'A' + (t - 640) as u8,
        _ => b'0' + (t - 656) as u8,
    }
}

// As many words as there is room for, one of each item.
fn fill_words<F: Fn(usize) -> u32>(words: &mut [u32], item: F)
    requires callable { (i : ℕ) → i < length words.old → F.pre item i }
    ensures { (f : ℕ → ℕ) → ((i x : ℕ) → i < length words.old → F.post item i x → x ≡ f i) → words.new ≡ along f 0 (length words.old) }
{
    for (i, word) in words.iter_mut().enumerate() {
        *word = item(i);
    }
}

// As many bytes of the text. Not by `fill_words`: its items are words, and a list of any type would need `along` of any type, and laws of it.
fn fill_text(text: &mut [u8])
    requires { length text.old ≤ 660 }
    ensures { text.new ≡ along byte_at 0 (length text.old) }
{
    for (i, byte) in text.iter_mut().enumerate() {
        *byte = byte_at(i);
    }
}

// The three trees.
pub fn fill_trees(kinds: &mut [u32], measures: &mut [u32], text: &mut [u8])
    requires { (792 ≡ length kinds.old) × (792 ≡ length measures.old) × (660 ≡ length text.old) }
    ensures { TreesFilled kinds.new measures.new text.new }
{
    fill_words(kinds, |e| kind_at(e));
    fill_words(measures, |e| measure_at(e));
    fill_text(text);
}

// Call i, from what the generator holds before it: `first_call` or `call_at`, by the draws that it takes. Two functions, since only `call_at` has a second draw.
fn numbered(i: u32, present: u32) -> DrawnCall
    requires { i < 96 }
    ensures { Called result (numbered_of i present) }
{
    if i < 3 {
        return first_call(i, drawn(present));
    }
    call_at(i, drawn(present), drawn(next(present)))
}

// What the generator holds after call i: calls 0, 1 and 2 share one draw, each further call takes two.
#[tactic(auto, unfolding(crate::specs::Numbered::passed))]
fn passed(i: u32, present: u32) -> u32
    ensures { result ≡ passed_of i present }
{
    match i {
        0 | 1 => present,
        2 => next(present),
        _ => next(next(present)),
    }
}

// The lists of calls. Of each call both places are written, and those that it does not list are written again. By number: it chooses the call, of which each list takes
// a word.
pub fn draw_calls(start: u32) -> Calls
    ensures { Filled start result.operations result.counts result.rules result.targets result.listed result.many }
{
    let mut operations = [0u32; 96];
    let mut counts = [0u32; 96];
    let mut rules = [0u32; 96];
    let mut targets = [0u32; 96];
    let mut listed = [0u32; 192];
    let mut present = start;
    let mut at = 0;
    for i in 0..96 {
        let call = numbered(i as u32, present);
        operations[i] = call.operation;
        counts[i] = call.count;
        rules[i] = call.rule;
        targets[i] = call.target;
        listed[at] = call.first;
        listed[at + 1] = call.second;
        at += call.count as usize;
        present = passed(i as u32, present);
    }
    Calls {
        operations,
        counts,
        rules,
        targets,
        listed,
        many: at,
    }
}

// What the generator holds after n draws.
fn after_draws(n: usize, start: u32) -> u32
    ensures { result ≡ after n start }
{
    let mut present = start;
    for _ in 0..n {
        present = next(present);
    }
    present
}

// The notes: their elements and their numbers. Lent, as the trees are, where the calls' lists are a value: each slice is handed on whole to what fills it, and has no count. By number, which is written too: over two zipped and enumerated lists it would be no shorter.
pub fn fill_notes(start: u32, noted: &mut [u32], numbers: &mut [u32])
    requires { (8 ≡ length noted.old) × (8 ≡ length numbers.old) }
    ensures { NotesFilled start noted.new numbers.new }
{
    let mut present = after_draws(187, start);
    for i in 0..8 {
        noted[i] = drawn(present) % 769;
        numbers[i] = i as u32 + 1;
        present = next(present);
    }
}
