// The mappings among the elements of an accepted batch, as one value.

ghost use Rattle.plan_mapping.specs.Mapped.{Mapped, mapped_prop};

use read_element_table::Elements;

// The elements, and the mappings as an array by element number.
#[derive(Clone, Copy)]
pub struct Mapping<'a> {
    pub elements: Elements<'a>,
    pub map: &'a [u32],
    pub ghost mapped: { Mapped elements.count map.now } by { mapped_prop elements.count map.now },
}
