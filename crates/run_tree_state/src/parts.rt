// What comes in with a step, as one value.

ghost use Rattle.run_tree_state.specs.Coming.{Coming, coming_prop};

// Rust: `replacement`, prepared. The rows of all parts as a run, the number of rows of each, and the notes that come along.
#[derive(Clone, Copy)]
pub struct Parts<'a> {
    pub run: &'a [u32],
    pub sizes: &'a [u32],
    pub notes: &'a [u32],
    pub ghost bounded: { Coming run.now sizes.now notes.now } by { coming_prop run.now sizes.now notes.now },
}
