// Lines 2 to 4: a batch is refused, or it is known where each of its arrays stands.
// An index of what is read stands as a clause: a value around each would be no plainer than its bound.
#![tactic(auto)]

ghost use Rattle.std.specs.Prelude.{◌≡◌, not, ◌≤◌, length};
ghost use Rattle.definition.specs.Batch.{sizes, beyond};
ghost use Rattle.definition_laws.specs.Accepted.{Limited};
ghost use Rattle.refusals.specs.Numbers.{answered};
ghost use Rattle.read_layout.specs.Layout.{sizes_of, layout_of, ends_at, laid};

mod batch;

pub use batch::Batch;
use refusals::Refusal;

// At which byte the arrays start: the seven sizes stand before them.
pub const ARRAYS: usize = 28;
// A call word is its operation, which is below this, and 256 for each element that the call lists, and `RULE` times its rule number.
pub const OPERATIONS: usize = 256;
// The listed count is below this.
pub const COUNTS: usize = 4096;
// What a rule number counts in a call word. It is below `RULES`.
pub const RULE: usize = 1048576;

pub const RULES: usize = 4096;

// The seven sizes of a batch.
#[derive(Clone, Copy)]
pub struct Sizes {
    pub trees: usize,
    pub elements: usize,
    pub text: usize,
    pub calls: usize,
    pub listed: usize,
    pub mappings: usize,
    pub notes: usize,
}

// The sizes, and at which byte each array starts.
#[derive(Clone, Copy)]
pub struct Layout {
    pub sizes: Sizes,
    pub kinds: usize,
    pub measures: usize,
    pub words: usize,
    pub targets: usize,
    pub list: usize,
    pub inputs: usize,
    pub outputs: usize,
    pub noted: usize,
    pub numbers: usize,
    pub text: usize,
}

// The seven sizes at the front of a batch.
#[tactic(auto, using(crate::proofs::Laying::sizes_read))]
pub fn read_sizes(b: &[u8]) -> Sizes
    requires { 28 ≤ length b.now }
    ensures { sizes_of result ≡ sizes b.now }
{
    Sizes {
        trees: words::read_word(b, 0),
        elements: words::read_word(b, 4),
        text: words::read_word(b, 8),
        calls: words::read_word(b, 12),
        listed: words::read_word(b, 16),
        mappings: words::read_word(b, 20),
        notes: words::read_word(b, 24),
    }
}

// Whether each size is within its limits.
#[tactic(auto, unfolding(definition::specs::Batch::beyond))]
pub fn within_limits(s: Sizes) -> bool
    ensures { result ≡ not (beyond (sizes_of s)) }
{
    (1..=16).contains(&s.trees)
        && s.elements <= 2048
        && s.text <= 16384
        && s.calls <= 256
        && s.listed <= 1024
        && s.mappings <= 1024
        && s.notes <= 256
}

// The arrays stand one after another. That sizes are within their limits stays a clause: those that are read may not be, so a value would be a second type of sizes.
fn placed(s: Sizes) -> Layout
    requires { Limited (sizes_of s) }
    ensures { result ≡ layout_of (sizes_of s) }
{
    let kinds = ARRAYS;
    let measures = kinds + 4 * s.elements;
    let words = measures + 4 * s.elements;
    let targets = words + 4 * s.calls;
    let list = targets + 4 * s.calls;
    let inputs = list + 4 * s.listed;
    let outputs = inputs + 4 * s.mappings;
    let noted = outputs + 4 * s.mappings;
    let numbers = noted + 4 * s.notes;
    let text = numbers + 4 * s.notes;
    Layout {
        sizes: s,
        kinds,
        measures,
        words,
        targets,
        list,
        inputs,
        outputs,
        noted,
        numbers,
        text,
    }
}

// Line 4, of sizes within their limits.
#[tactic(auto, using(crate::proofs::Laying::text_fits, crate::proofs::Laying::ends_elsewhere, crate::proofs::Laying::ends))]
fn judge_length(b: &[u8], s: Sizes) -> Result<Layout, Refusal>
    requires { Limited (sizes_of s) }
    ensures { answered result ≡ ends_at (length b.now) (sizes_of s) }
{
    let l = placed(s);
    if b.len() != l.text + s.text {
        return Err(Refusal::Length);
    }
    Ok(l)
}

// Lines 2, 3 and 4.
#[tactic(auto, using(crate::proofs::Laying::too_short, crate::proofs::Laying::out_of_limits, crate::proofs::Laying::limits, crate::proofs::Laying::in_limits))]
pub fn lay_out(b: &[u8]) -> Result<Layout, Refusal>
    ensures { answered result ≡ laid b.now }
{
    if b.len() < ARRAYS {
        return Err(Refusal::ShortBatch);
    }
    let s = read_sizes(b);
    if !within_limits(s) {
        return Err(Refusal::Size);
    }
    judge_length(b, s)
}
