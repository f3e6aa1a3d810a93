// Two numbers that planning counts for the result's sizes, as one value.

ghost use Rattle.std.specs.Prelude.{◌^◌, ◌<◌};

// How many changes are discarded, and how many steps the climbs took; each fits a word.
#[derive(Clone, Copy)]
pub struct Tally {
    pub discarded: usize,
    pub climbs: usize,
    pub ghost few_discarded: { discarded < 2 ^ 32 },
    pub ghost few_climbs: { climbs < 2 ^ 32 },
}
