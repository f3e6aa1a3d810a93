// Line 5 by itself, and what it asks of one element. A batch is judged as its table is filled (read_element_table).
#![tactic(auto)]

ghost use Rattle.std.specs.Prelude.{◌≡◌, ◌≤◌};
ghost use Rattle.read_spelling.specs.Spelling.{children_of, length_of, stands as stands_at, accepts};
ghost use Rattle.read_spelling.specs.Held.{elements_of};

mod columns;

pub use columns::Columns;
use words::NODE_KIND;

// How many children an element has.
#[tactic(auto, using(crate::specs::SpellingLaws::children_token, crate::specs::SpellingLaws::children_node))]
pub fn children_of(kind: usize, measure: usize) -> usize
    ensures { result ≡ children_of kind measure }
{
    if kind < NODE_KIND {
        return 0;
    }
    measure
}

// How long the text of an element alone is.
#[tactic(auto, using(crate::specs::SpellingLaws::length_token, crate::specs::SpellingLaws::length_node))]
pub fn length_of(kind: usize, measure: usize) -> usize
    ensures { (result ≡ length_of kind measure) × (result ≤ measure) }
{
    if kind < NODE_KIND {
        return measure;
    }
    0
}

// Whether an element with this kind word may stand at this depth.
#[tactic(auto, using(crate::specs::SpellingLaws::stands_malformed, crate::specs::SpellingLaws::stands_deep, crate::specs::SpellingLaws::stands_node, crate::specs::SpellingLaws::stands_token))]
pub fn stands(kind: usize, depth: usize) -> bool
    ensures { result ≡ stands_at kind depth }
{
    if 0x1_0000 <= kind % NODE_KIND {
        return false;
    }
    if 64 < depth {
        return false;
    }
    if NODE_KIND <= kind {
        return true;
    }
    1 < depth
}

// Line 5: whether elements spell `trees` trees with `bytes` bytes of text. Each turn closes the innermost open element, if all its children have come,
// or opens the next one; a token has none, and is closed at once. So it is a `while`: a `for` over elements would need a second loop inside.
// `fill_elements` (read_element_table) and `read_tree` (check_table) walk so too, each with another stack: one walk would take what they do at each turn as
// closures that write, each with its own contract.
pub fn spells(columns: &Columns, trees: usize, bytes: usize) -> bool
    ensures { result ≡ accepts trees bytes (elements_of columns.now) }
{
    let mut left = [0usize; 65];
    left[0] = trees;
    let mut d: usize = 1;
    let mut sum: usize = 0;
    let mut i: usize = 0;
    while 0 < d {
        let top = d - 1;
        let x = left[top];
        if x == 0 {
            d = top;
        } else {
            if columns.count <= i {
                return false;
            }
            let (k, m) = columns.get(i);
            if !stands(k, d) {
                return false;
            }
            left[top] = x - 1;
            i += 1;
            if k < NODE_KIND {
                sum += m;
            } else {
                left[d] = m;
                d += 1;
            }
        }
    }
    if i < columns.count {
        return false;
    }
    sum == bytes
}
