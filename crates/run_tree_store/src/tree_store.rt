// The trees of a run with the element table, to be read as one value.

ghost use Rattle.std.specs.Prelude.{◌<◌, length};
ghost use Rattle.orders.specs.Lists.{All};
ghost use Rattle.read_element_table.specs.Wellformed.{Lines};
ghost use Rattle.run_tree_store.specs.Placed.{placed_prop, lines_prop};

use rows_syntax_node::Rows;

// Rust: TreeStore, as a change finds its place in it. The rows of all trees, the row at which each element stands (0 for one that is gone), and the element
// table. Its lines alone are known, which is less than `Elements` holds. Not over a `Trees`: each clause and each reader of rows or marks would name both.
#[derive(Clone, Copy)]
pub struct TreeStore<'a, 'b> {
    pub rows: Rows<'a>,
    pub marks: &'b [u32],
    pub table: &'b [u32],
    pub ghost some: { 0 < rows.count },
    pub ghost placed: { All (λ m. m < rows.count) marks.now } by { placed_prop rows.count marks.now },
    pub ghost lines: { Lines (length marks.now) table.now } by { lines_prop (length marks.now) table.now },
}
