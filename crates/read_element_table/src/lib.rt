// Line 5 and the element table: see specs/View.antt for what its words tell.
// Bounds of one number, an index of what is read and room in a lent slice stand as clauses: a value around each would be no plainer than its bound.
#![tactic(auto)]

ghost use Rattle.std.specs.Prelude.{◌≡◌, true, cond, suc, ◌+◌, ◌*◌, ◌^◌, ◌≤◌, ◌<◌, eqb, length, get_or};
ghost use Rattle.std.proofs.Math.Seq.{paste};
ghost use Rattle.definition.specs.Elements.{is_node};
ghost use Rattle.read_spelling.specs.Held.{elements_of};
ghost use Rattle.read_spelling.specs.Spelling.{accepts};
ghost use Rattle.read_element_table.specs.Told.{child_count};
ghost use Rattle.read_element_table.specs.Next.{Next};
ghost use Rattle.read_element_table.specs.Filling.{Filled, ended, table_of, rows_from};

mod elements;

pub use elements::Elements;
use read_spelling::Columns;
use rows_syntax_node::{KIND, ROW_WORDS};
use words::NODE_KIND;

// How many words an element has, and which they are (specs/View.antt): all eight, though not each is read by its name.
pub const WORDS: usize = 8;

pub const OFFSET: usize = 0;
// Its parent + 1; 0 for a root.
pub const PARENT: usize = 1;

pub const CHILD: usize = 2;

pub const DEPTH: usize = 3;
// Where its text starts and ends in its own tree.
pub const TEXT_START: usize = 4;

pub const TEXT_END: usize = 5;
// The element after its subtree.
pub const AFTER: usize = 6;

pub const TREE: usize = 7;

// An open element: how many of its children are to come, its number + 1 (0 for all the trees), the number of its next child. `owner` stays a number, since it is the
// word that its children get in the table (`PARENT`).
#[derive(Clone, Copy)]
struct Open {
    left: usize,
    owner: usize,
    next: usize,
}

impl Open {
    ghost use Rattle.std.specs.Prelude.{◌-◌};
    ghost use Rattle.read_element_table.specs.Filling.{open_of};

    // It as it is opened, with all its children to come.
    fn new(left: usize, owner: usize) -> Open
        ensures { result ≡ open_of left owner 0 }
    {
        Open {
            left,
            owner,
            next: 0,
        }
    }

    // It after its next child has come.
    fn passed(self) -> Open
        requires { (0 < self.left) × (self.next < 2 ^ 32) }
        ensures { result ≡ open_of (self.left - 1) self.owner (self.next + 1) }
    {
        Open {
            left: self.left - 1,
            next: self.next + 1,
            ..self
        }
    }
}

// What a root sets and the others keep: `x` at depth 1, else `y`.
fn if_root(depth: usize, x: usize, y: usize) -> usize
    ensures { result ≡ cond (eqb depth 1) x y }
{
    if depth == 1 {
        return x;
    }
    y
}

// The element with the number `owner` - 1 is closed: where its text ends, and the element after its subtree. By its number in the table's words, and no
// `Elements`: the table is lent to be written.
fn close(table: &mut [u32], owner: usize, end: usize, after: usize)
    requires { (8 * owner ≤ length table.old) × (end < 2 ^ 32) × (after < 2 ^ 32) }
    ensures { table.new ≡ ended owner end after table.old }
{
    if let Some(e) = owner.checked_sub(1) {
        table[WORDS * e + TEXT_END] = end as u32;
        table[WORDS * e + AFTER] = after as u32;
    }
}

// The kind word and the measure of element `i`, if there is one and it may stand at this depth.
fn next_element(columns: &Columns, i: usize, depth: usize) -> Option<(usize, usize)>
    ensures { Next columns.now i depth result }
{
    if columns.count <= i {
        return None;
    }
    let (kind, measure) = columns.get(i);
    if !read_spelling::stands(kind, depth) {
        return None;
    }
    Some((kind, measure))
}

// Line 5, and in the same walk the words of all elements in the table, and their rows behind the first row of the source. Each turn closes the innermost open
// element, if all its children have come, or enters the next one. So it is a `while`: a `for` over elements would need a second loop inside. Beside
// `spells`, which writes nothing: read_spelling says why. An element is entered with words 5 and 6 of one without children: a token is closed by that, a node
// gets them anew as it is closed. Most elements are tokens: they have a branch of their own, which asks no more than a token needs. The innermost open element
// is held in `x`, those around it on the stack. Where line 5 refuses, what has been written is left.
fn fill_elements(
    columns: &Columns,
    trees: usize,
    bytes: usize,
    table: &mut [u32],
    source: &mut [u32],
) -> bool
    requires in_bounds { (columns.now.count ≤ 2048) × (8 * columns.now.count ≤ length table.old) × (3 * (columns.now.count + 1) ≤ length source.old) × (bytes < 2 ^ 32) }
    ensures spelled { result ≡ accepts trees bytes (elements_of columns.now) }
    ensures table_after { result ≡ true → table.new ≡ paste table.old 0 (table_of trees (elements_of columns.now)) (8 * columns.now.count) }
    ensures source_after { result ≡ true → source.new ≡ paste source.old 3 (rows_from 0 (elements_of columns.now)) (3 * columns.now.count) }
{
    let mut x = Open::new(trees, 0);
    let mut stack = [x; 65];
    let mut d: usize = 1;
    let mut o: usize = 0;
    let mut at: usize = 0;
    let mut tree: usize = 0;
    let mut i: usize = 0;
    while 0 < d {
        if x.left == 0 {
            close(table, x.owner, at, i);
            d -= 1;
            x = stack[d];
        } else {
            let Some((k, m)) = next_element(columns, i, d) else {
                return false;
            };
            let e = WORDS * i;
            i += 1;
            words::store(source, ROW_WORDS * i, &[k, m, o]);
            if k < NODE_KIND {
                if bytes - o < m {
                    return false;
                }
                words::store(table, e, &[o, x.owner, x.next, d, at, at + m, i, tree]);
                o += m;
                at += m;
                x = x.passed();
            } else {
                at = if_root(d, 0, at);
                tree = if_root(d, x.next, tree);
                words::store(table, e, &[o, x.owner, x.next, d, at, at, i, tree]);
                stack[d] = x.passed();
                x = Open::new(m, i);
                d += 1;
            }
        }
    }
    i == columns.count && o == bytes
}

// Line 5: whether the elements spell `trees` trees with `bytes` bytes of text. If so the element table and the rows are filled, with the row of the node above
// all trees.
pub fn fill(
    columns: &Columns,
    trees: usize,
    bytes: usize,
    table: &mut [u32],
    source: &mut [u32],
) -> bool
    requires in_bounds { (columns.now.count ≤ 2048) × (8 * columns.now.count ≤ length table.old) × (3 * (columns.now.count + 1) ≤ length source.old) × (trees ≤ 16) × (bytes < 2 ^ 32) }
    ensures spelled { result ≡ accepts trees bytes (elements_of columns.now) }
    ensures filled { result ≡ true → Filled trees columns.now.count (elements_of columns.now) table.old source.old table.new source.new }
{
    words::store(source, 0, &[NODE_KIND, trees, 0]);
    fill_elements(columns, trees, bytes, table, source)
}

// ── What is read of it: by its slice alone, since each asks for one element's words, which is less than `Elements` has ──

// Word `k` of element `e`.
pub fn entry(table: &[u32], e: usize, k: usize) -> usize
    requires { (k < 8) × (8 * e + 8 ≤ length table.now) }
    ensures { (result ≡ get_or table.now (8 * e + k) 0) × (result < 2 ^ 32) }
{
    words::word(table, WORDS * e + k)
}

// Word `k` of the row of element `e`.
#[tactic(auto, using(crate::proofs::Reading::row_at_lem))]
pub fn row_word(source: &[u32], e: usize, k: usize) -> usize
    requires { (k < 3) × (3 * e + 6 ≤ length source.now) }
    ensures { (result ≡ get_or source.now (3 * suc e + k) 0) × (result < 2 ^ 32) }
{
    words::word(source, ROW_WORDS * e + ROW_WORDS + k)
}

// Whether element `e` is a node.
#[tactic(auto, using(crate::proofs::Reading::kind_at))]
pub fn is_node(source: &[u32], e: usize) -> bool
    requires { 3 * e + 6 ≤ length source.now }
    ensures { result ≡ is_node (get_or source.now (3 * suc e) 0) }
{
    NODE_KIND <= row_word(source, e, KIND)
}

// Whether element `e` is a root.
#[tactic(auto, using(crate::proofs::Reading::root_at))]
pub fn is_root(table: &[u32], e: usize) -> bool
    requires { 8 * e + 8 ≤ length table.now }
    ensures { result ≡ eqb (get_or table.now (8 * e + 1) 0) 0 }
{
    entry(table, e, PARENT) == 0
}

// How many children element `e` has: its row stands behind the one of the node above all trees.
pub fn child_count(source: &[u32], e: usize) -> usize
    requires { 3 * e + 6 ≤ length source.now }
    ensures { result ≡ child_count source.now e }
{
    rows_syntax_node::child_count(source, e + 1)
}
