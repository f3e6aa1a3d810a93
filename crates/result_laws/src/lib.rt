// The bytes of a result: where its sizes and its arrays stand; laws: see specs/.
#![tactic(auto)]

// At which byte each of the six sizes stands.
pub const ELEMENTS: usize = 0;

pub const TEXT: usize = 4;

pub const CHANGED: usize = 8;

pub const NOTES: usize = 12;

pub const DISCARDED: usize = 16;

pub const CLIMBS: usize = 20;
// At which byte the arrays start.
pub const ARRAYS: usize = 24;
