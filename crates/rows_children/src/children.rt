// Rows with the tables of their children, as one value.

ghost use Rattle.rows_children.specs.Tables.{ChildrenTold, children_prop};

use rows_syntax_node::Rows;

// Where in `child` the children of each row begin, and there the rows of all children.
#[derive(Clone, Copy)]
pub struct Children<'a> {
    pub rows: Rows<'a>,
    pub first: &'a [u32],
    pub child: &'a [u32],
    pub ghost told: { ChildrenTold rows.words.now rows.count first.now child.now } by { children_prop rows.words.now rows.count first.now child.now },
}
