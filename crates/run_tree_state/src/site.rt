// Where a change goes, as one value.

ghost use Rattle.std.specs.Prelude.{◌≤◌};

use run_tree_store::Gap;

// The gap, the depth of the node above it, the rule number by which what comes in is recorded, if it is, and the number of the change's target: a hint for
// the walk over the marks, of which nothing is asked.
#[derive(Clone, Copy)]
pub struct Site {
    pub gap: Gap,
    pub above: usize,
    pub recorded: Option<usize>,
    pub target: usize,
    pub ghost shallow: { above ≤ 64 },
}
