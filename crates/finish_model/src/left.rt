// What a run leaves of all trees, as one value.

ghost use Rattle.std.specs.Prelude.{◌^◌, ◌≤◌, ◌<◌};
ghost use mathlib.Core.List.{[]};
ghost use Rattle.rows_model.specs.Row.{bytes, first_rows};

use rows_syntax_node::Rows;

// Their rows: there are some, that of the node above all trees, and their text can be counted. It is counted by the rows alone, whatever the text.
#[derive(Clone, Copy)]
pub struct Left<'a> {
    pub rows: Rows<'a>,
    pub ghost some: { 1 ≤ rows.count },
    pub ghost light: { bytes (first_rows [] rows.count rows.words.now) < 2 ^ 32 },
}
