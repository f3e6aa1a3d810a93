// The draws of a starting number, and the call that they choose (document 02, Note 12; docs/LOAD.md).
// Bounds of one number stand as clauses: a value around each would be no plainer than its bound.
#![tactic(auto)]

ghost use Rattle.std.specs.Prelude.{◌≡◌, ◌<◌, ◌≤◌, length, get_or};
ghost use Rattle.load_laws.specs.Load.{next as next_of, drawn as drawn_of, separator as separator_of, block as block_of, block_token, donor as donor_of, call, replaced, token_drawn, donor_drawn, other_drawn, first_calls, free_call, own_call, call_at};
ghost use Rattle.load_laws.specs.Draws.{none};
ghost use Rattle.load_draws.specs.Called.{Called};

// The root of tree 2, by which a block is replaced, and the copy of a block in it.
pub const REPLACEMENT: u32 = 786;

pub const COPY: u32 = 787;

// The operations of a call, as words of a batch: `read_calls::Operation` has no further editor, and its crate stands above this one.
const FIRST_CHILD: u32 = 0;

const AFTER: u32 = 1;

const REPLACE: u32 = 2;

const DELETE: u32 = 3;

const REPLACE_BY_MANY: u32 = 4;

const REPLACE_RUN: u32 = 5;

const FURTHER_EDITOR: u32 = 6;

// A drawn call. It lists `count` elements: none, `first`, or `first` and `second`. Not an enum of the three: who lists the elements of all calls writes both
// places and goes on by the count, and would have an arm for each.
#[derive(Clone, Copy)]
pub struct DrawnCall {
    pub operation: u32,
    pub target: u32,
    pub rule: u32,
    pub count: u32,
    pub first: u32,
    pub second: u32,
}

// What the generator holds after a draw.
#[tactic(auto, unfolding(load_laws::specs::Load::next))]
pub fn next(present: u32) -> u32
    ensures { result ≡ next_of present }
{
    present.wrapping_mul(1664525).wrapping_add(1013904223)
}

// The next draw: the upper 16 bits of what the generator holds after it.
#[tactic(auto, unfolding(load_laws::specs::Load::drawn))]
pub fn drawn(present: u32) -> u32
    ensures { result ≡ drawn_of present }
{
    next(present) / 65536
}

// Elements by number: each kind by its own function, as the definition and docs/LOAD.md name it.

// Separator i.
#[tactic(auto, unfolding(load_laws::specs::Load::separator))]
fn separator(i: u32) -> u32
    requires { i < 128 }
    ensures { result ≡ separator_of i }
{
    1 + 6 * i
}

// Block i.
#[tactic(auto, unfolding(load_laws::specs::Load::block))]
pub fn block(i: u32) -> u32
    requires { i < 128 }
    ensures { result ≡ block_of i }
{
    2 + 6 * i
}

// Token j of block i.
#[tactic(auto, unfolding(load_laws::specs::Load::block_token))]
fn block_token(i: u32, j: u32) -> u32
    requires { (i < 128) × (j < 4) }
    ensures { result ≡ block_token i j }
{
    3 + 6 * i + j
}

// Donor d.
#[tactic(auto, unfolding(load_laws::specs::Load::donor))]
fn donor(d: u32) -> u32
    requires { d < 16 }
    ensures { result ≡ donor_of d }
{
    770 + d
}

// The block that call 0 replaces.
#[tactic(auto, unfolding(load_laws::specs::Load::replaced))]
pub fn replaced_block(d: u32) -> u32
    ensures { result ≡ block_of (replaced d) }
{
    block(d % 64)
}

// The token of block i that a place names.
#[tactic(auto, unfolding(load_laws::specs::Load::token_drawn))]
fn token_drawn(i: u32, place: u32) -> u32
    requires { i < 128 }
    ensures { result ≡ block_token i (token_drawn place) }
{
    block_token(i, place / 64 % 4)
}

// The donor that a place names.
#[tactic(auto, unfolding(load_laws::specs::Load::donor_drawn))]
fn donor_drawn(place: u32) -> u32
    ensures { result ≡ donor_drawn place }
{
    donor(place / 256 % 16)
}

// The other donor that a place names.
#[tactic(auto, unfolding(load_laws::specs::Load::other_drawn))]
fn other_drawn(place: u32) -> u32
    requires { place < 65536 }
    ensures { result ≡ other_drawn place }
{
    donor(place / 4096)
}

// A call that lists these elements; a place that none stands in holds 0.
fn listing(rule: u32, operation: u32, target: u32, listed: &[u32]) -> DrawnCall
    requires { length listed.now ≤ 2 }
    ensures { Called result (call rule operation target listed.now) }
{
    DrawnCall {
        operation,
        target,
        rule,
        count: listed.len() as u32,
        first: listed.first().copied().unwrap_or(0),
        second: listed.get(1).copied().unwrap_or(0),
    }
}

// Call 0, 1 or 2, from draw 1.
#[tactic(auto, using(crate::proofs::Ways::first_0, crate::proofs::Ways::first_1, crate::proofs::Ways::first_2))]
pub fn first_call(i: u32, d: u32) -> DrawnCall
    requires { (i < 3) × (d < 65536) }
    ensures { Called result (get_or (first_calls d) i none) }
{
    match i {
        0 => listing(d / 16, REPLACE, replaced_block(d), &[REPLACEMENT]),
        1 => listing(d / 16, AFTER, block_token(d % 64, d / 64 % 4), &[donor(0)]),
        _ => listing(
            d / 16,
            AFTER,
            block_token(d / 1024, d / 256 % 4),
            &[donor(1)],
        ),
    }
}

// A call in block b. Only a later one deletes it. `later` is the definition's, by whose `free_call` it is promised; two functions would write seven of eight arms twice.
#[tactic(auto, using(crate::proofs::Ways::free_0, crate::proofs::Ways::free_1, crate::proofs::Ways::free_3, crate::proofs::Ways::free_4, crate::proofs::Ways::free_6, crate::proofs::Ways::free_7, crate::proofs::Ways::free_else))]
fn free_call(later: bool, b: u32, what: u32, place: u32) -> DrawnCall
    requires { (b < 128) × (place < 65536) }
    ensures { Called result (free_call later b what place) }
{
    let rule = what / 16;
    let token = token_drawn(b, place);
    let first = donor_drawn(place);
    match what % 8 {
        0 => listing(rule, FIRST_CHILD, block(b), &[first]),
        1 | 2 => listing(rule, AFTER, token, &[first]),
        3 => listing(rule, AFTER, separator(b), &[first, other_drawn(place)]),
        4 | 5 => listing(rule, REPLACE, token, &[first]),
        6 => listing(rule, DELETE, token, &[]),
        _ if later => listing(rule, DELETE, block(b), &[]),
        _ => listing(rule, AFTER, separator(b), &[first]),
    }
}

// The only call in block b.
#[tactic(auto, using(crate::proofs::Ways::own_0, crate::proofs::Ways::own_1))]
fn own_call(b: u32, what: u32, place: u32) -> DrawnCall
    requires { (b < 128) × (place < 65536) }
    ensures { Called result (own_call b what place) }
{
    let rule = what / 16;
    let token = token_drawn(b, place);
    let first = donor_drawn(place);
    if what % 2 == 0 {
        return listing(rule, REPLACE_BY_MANY, token, &[first, other_drawn(place)]);
    }
    listing(rule, REPLACE_RUN, block_token(b, 0), &[token, first])
}

// Call i, from 3 on, from its two draws.
#[tactic(auto, using(crate::proofs::Ways::at_low, crate::proofs::Ways::at_editor, crate::proofs::Ways::at_high, crate::proofs::Ways::at_own))]
pub fn call_at(i: u32, what: u32, place: u32) -> DrawnCall
    requires { (i < 96) × (place < 65536) }
    ensures { Called result (call_at i what place) }
{
    match i {
        ..32 => free_call(false, place % 64, what, place),
        32 => listing(0, FURTHER_EDITOR, 0, &[]),
        33..64 => free_call(true, 64 + place % 32, what, place),
        _ => own_call(i + 32, what, place),
    }
}
