// The checker's work slices, as one value.

// The words of the old elements and of the new ones, partners and marks, in the order of docs/WORK.md.
#[derive(Drop)]
pub struct Work<'a> {
    pub before: &'a mut [u32],
    pub after: &'a mut [u32],
    pub partners: &'a mut [u32],
    pub marks: &'a mut [u32],
}
