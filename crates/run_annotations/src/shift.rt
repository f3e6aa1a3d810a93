// What a splice does to the rows, as one value.

ghost use Rattle.std.specs.Prelude.{◌^◌, ◌≤◌, ◌<◌};

// The rows `from` up to `to` give way to `count` others.
#[derive(Clone, Copy)]
pub struct Shift {
    pub from: usize,
    pub to: usize,
    pub count: usize,
    pub ghost order: { from ≤ to },
    pub ghost low: { to < 2 ^ 16 },
    pub ghost few: { count < 2 ^ 16 },
}
