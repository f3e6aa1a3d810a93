// A tree given as lists of kind words and measures: whether line 5 accepts it, and four words for each of its elements.
// An index of what is read and room in the lent table stand as clauses: a value around each would be no plainer than its bound. So does that the two lists have one
// length: C lends them apart, and the checker has refused two of unequal length before it reads them.
#![tactic(auto)]

ghost use Rattle.std.specs.Prelude.{◌≡◌, ◌+◌, ◌*◌, ◌^◌, ◌≤◌, ◌<◌, length};
ghost use mathlib.Core.List.{zip};
ghost use Rattle.check_model.specs.Clauses.{entry as word_of};
ghost use Rattle.check_table.specs.Next.{Opens};
ghost use Rattle.check_table.specs.Walk.{Reads};

// How many words an element has, and which they are.
pub const WORDS: usize = 4;

pub const KIND: usize = 0;
// Where its own text starts and ends; a node has none.
pub const START: usize = 1;

pub const END: usize = 2;
// Its parent + 1; 0 for the root.
pub const PARENT: usize = 3;

// Word `k` of element `e`. Beside `read_element_table::entry`, whose elements have eight words: each is one look-up by its own definition.
#[tactic(auto, unfolding(check_model::specs::Clauses::entry))]
pub fn entry(table: &[u32], e: usize, k: usize) -> usize
    requires { (k < 4) × (4 * e + 4 ≤ length table.now) }
    ensures { (result ≡ word_of table.now e k) × (result < 2 ^ 32) }
{
    words::word(table, WORDS * e + k)
}

// What an element tells where it may stand: its kind word, where its own text ends, and how many children it has.
#[derive(Clone, Copy)]
struct Next {
    kind: usize,
    end: usize,
    children: usize,
}

// Element `i`, at depth `d`, whose text starts at `sum`: none if there is no such element, if its kind may not stand there, or if its text goes beyond `bytes`.
fn element_at(
    kinds: &[u32],
    measures: &[u32],
    i: usize,
    d: usize,
    sum: usize,
    bytes: usize,
) -> Option<Next>
    requires { (length measures.now ≡ length kinds.now) × (sum ≤ bytes) × (bytes ≤ 16384) }
    ensures { Opens kinds.now measures.now i d sum bytes result }
{
    let kind = *kinds.get(i)? as usize;
    if !read_spelling::stands(kind, d) {
        return None;
    }
    let measure = words::word(measures, i);
    let end = sum + read_spelling::length_of(kind, measure);
    if bytes < end {
        return None;
    }
    let children = read_spelling::children_of(kind, measure);
    Some(Next {
        kind,
        end,
        children,
    })
}

// An open element: how many of its children are to come, and its number + 1, 0 for what is above the tree: a number, since it is the word that its children get in the
// table (`PARENT`).
#[derive(Clone, Copy)]
struct Open {
    left: usize,
    owner: usize,
}

// Line 5 of one tree with `bytes` bytes of text; where it accepts, the words of all elements stand in the table. Each turn closes the innermost open element,
// if all its children have come, or opens the next one: a token has none. So it is a `while`: a `for` over elements would need a second loop inside.
// Beside the walks `read_spelling::spells`, which writes nothing, and `read_element_table::fill_elements`, which writes eight words: as one, with closures, it would owe their laws through these.
pub fn read_tree(kinds: &[u32], measures: &[u32], bytes: usize, table: &mut [u32]) -> bool
    requires { (length measures.now ≡ length kinds.now) × (length kinds.now ≤ 4096) × (4 * length kinds.now ≤ length table.old) × (bytes ≤ 16384) }
    ensures { Reads (zip kinds.now measures.now) bytes result table.new }
{
    let mut open = [Open { left: 1, owner: 0 }; 65];
    let mut d: usize = 1;
    let mut sum: usize = 0;
    let mut i: usize = 0;
    while 0 < d {
        let top = d - 1;
        let parent = open[top];
        if parent.left == 0 {
            d = top;
        } else {
            let Some(element) = element_at(kinds, measures, i, d, sum, bytes) else {
                return false;
            };
            let row = [element.kind, sum, element.end, parent.owner];
            words::store(table, WORDS * i, &row);
            open[top] = Open {
                left: parent.left - 1,
                owner: parent.owner,
            };
            open[d] = Open {
                left: element.children,
                owner: i + 1,
            };
            d += 1;
            sum = element.end;
            i += 1;
        }
    }
    if i < kinds.len() {
        return false;
    }
    sum == bytes
}
