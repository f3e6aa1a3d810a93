// What a run leaves, to be read as one value.

ghost use Rattle.std.specs.Prelude.{◌+◌, ◌*◌, ◌^◌, ◌≤◌, ◌<◌, length};
ghost use Rattle.series_move.specs.Standing.{Tables, tables_prop};

use rows_syntax_node::Rows;

// Where the elements of a batch stood, and where they stand. `elements` and `source` are no `Rows`: every clause speaks of elements, which would be a count less one, and
// that it is not 0 would be a field more.
#[derive(Clone, Copy)]
pub struct RunEnd<'a> {
    // How many they are. Their rows stand in `source` behind that of the node above all trees.
    pub elements: usize,
    pub source: &'a [u32],
    // The row of each of them now, 0 where it is gone.
    pub marks: &'a [u32],
    // The rows of the current trees.
    pub rows: Rows<'a>,
    pub ghost long: { 3 * (elements + 1) ≤ length source.now },
    pub ghost few: { elements < 2 ^ 12 },
}

// The same with what its rows tell at once: where the children of the old elements begin, their rows, and how many trees begin from each of the new rows on.
#[derive(Clone, Copy)]
pub struct Ways<'a> {
    pub run: RunEnd<'a>,
    pub first: &'a [u32],
    pub child: &'a [u32],
    pub begun: &'a [u32],
    pub ghost told: { Tables run.source.now run.elements run.rows.words.now run.rows.count first.now child.now begun.now } by { tables_prop run.source.now run.elements run.rows.words.now run.rows.count first.now child.now begun.now },
}
