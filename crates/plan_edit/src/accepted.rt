// An accepted batch, as one value.

ghost use Rattle.std.specs.Prelude.{◌≡◌};

use read_element_table::Elements;
use read_layout::Batch;

// A batch, and the elements that its lists spell.
#[derive(Clone, Copy)]
pub struct Accepted<'a, 'b> {
    pub batch: Batch<'a>,
    pub elements: Elements<'b>,
    pub ghost counted: { elements.count ≡ batch.layout.sizes.elements },
}
