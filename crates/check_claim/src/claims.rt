// What another editor claims, as one value.

// A tree as lists in preorder: kind words, measures, and the text of all its tokens.
#[derive(Clone, Copy)]
pub struct Tree<'a> {
    pub kinds: &'a [u32],
    pub measures: &'a [u32],
    pub text: &'a [u8],
}

// The old tree and the new one, the kept elements' old numbers and beside each its new one, and the changed elements.
#[derive(Clone, Copy)]
pub struct Claims<'a> {
    pub old: Tree<'a>,
    pub new: Tree<'a>,
    pub olds: &'a [u32],
    pub news: &'a [u32],
    pub changed: &'a [u32],
}
