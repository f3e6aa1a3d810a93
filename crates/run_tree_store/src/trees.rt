// The trees of a run, to be read as one value.

ghost use Rattle.std.specs.Prelude.{◌<◌};
ghost use Rattle.orders.specs.Lists.{All};
ghost use Rattle.run_tree_store.specs.Placed.{placed_prop};

use rows_syntax_node::Rows;

// Rust: TreeStore, as reading finds it. The rows of all trees, and the row at which each element stands: 0 for one that is gone.
#[derive(Clone, Copy)]
pub struct Trees<'a, 'b> {
    pub rows: Rows<'a>,
    pub marks: &'b [u32],
    pub ghost placed: { All (λ m. m < rows.count) marks.now } by { placed_prop rows.count marks.now },
}
