// The elements of an accepted batch, as one value.

ghost use Rattle.read_element_table.specs.Wellformed.{Wellformed, wellformed_prop};

// How many elements there are, their table, and their rows behind the row of the node above all trees. The slices are work slices, lent and longer (fixed memory): cut to
// the count, each would have it as a quotient.
#[derive(Clone, Copy)]
pub struct Elements<'a> {
    pub count: usize,
    pub table: &'a [u32],
    pub source: &'a [u32],
    pub ghost formed: { Wellformed count table.now source.now } by { wellformed_prop count table.now source.now },
}
