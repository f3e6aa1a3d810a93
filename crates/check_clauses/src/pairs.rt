// What the clauses are asked of, as values.

ghost use Rattle.std.specs.Prelude.{◌≡◌, length};

// The kept elements that are claimed: their old numbers, and beside each its new one. Two lists, as C lends them, that are walked by `zip`: a method for that would have
// the library's `Zip` for its type, and the law of `zip` for its contract.
#[derive(Clone, Copy)]
pub struct Pairs<'a> {
    pub olds: &'a [u32],
    pub news: &'a [u32],
    pub ghost alike: { length news.now ≡ length olds.now },
}

// One of the two trees: the words of its elements, and its text.
#[derive(Clone, Copy)]
pub struct Side<'a> {
    pub table: &'a [u32],
    pub text: &'a [u8],
}
