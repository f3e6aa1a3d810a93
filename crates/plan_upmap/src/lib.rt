// Mapping elements into a replacement: the way down by child numbers, where a dependent's target goes, where a note's element settles.
// An index of what is read stands as a clause: a value around each would be no plainer than its bound. So `input` and `output` stay two numbers: only the bound of
// each is known.
#![tactic(auto)]

ghost use Rattle.std.specs.Prelude.{◌<◌, length};
ghost use Rattle.plan_mapping.specs.Backward.{backward};
ghost use Rattle.plan_upmap.specs.Answers.{FoundChild, Descended, Landed, MovedFrom, MovedTo};
ghost use Rattle.plan_upmap.specs.Settling.{Nearest, OneMove, SettledAt};

mod mapping;

pub use mapping::Mapping;
use read_element_table::{Elements, entry};
use refusals::Refusal;

// Child number `i` of element `e`, if there is one.
pub fn nth_child(elements: &Elements, e: usize, i: usize) -> Option<usize>
    requires { e < elements.now.count }
    ensures { FoundChild elements.now.count elements.now.table.now elements.now.source.now e i result }
{
    if read_element_table::child_count(elements.source, e) <= i {
        return None;
    }
    let mut c = e + 1;
    for _ in 0..i {
        c = entry(elements.table, c, read_element_table::AFTER);
    }
    Some(c)
}

// The element to which the child numbers lead from `r`, read backward, if they lead to one. A `for`, since it carries the
// element and leaves where there is no such child.
pub fn descend(elements: &Elements, r: usize, numbers: &[u32]) -> Option<usize>
    requires { r < elements.now.count }
    ensures { Descended elements.now.count elements.now.table.now elements.now.source.now r (backward (length numbers.now) numbers.now) result }
{
    let mut at = r;
    for number in numbers.iter().rev() {
        at = nth_child(elements, at, *number as usize)?;
    }
    Some(at)
}

// Where `e` lands, down the child numbers from `r`: a node lands on no token.
pub fn land(elements: &Elements, e: usize, r: usize, numbers: &[u32]) -> Option<usize>
    requires { (e < elements.now.count) × (r < elements.now.count) }
    ensures { Landed elements.now.count elements.now.table.now elements.now.source.now e r (backward (length numbers.now) numbers.now) result }
{
    let to = descend(elements, r, numbers)?;
    if read_element_table::is_node(elements.source, to) {
        return Some(to);
    }
    if read_element_table::is_node(elements.source, e) {
        return None;
    }
    Some(to)
}

// Where an element goes, and how many climb steps were taken.
#[derive(Clone, Copy)]
pub struct Moved {
    pub element: usize,
    pub steps: usize,
}

// Where `child` goes that stands below `input` by the numbers of `place`: from `output` down the trail of `input`, then down that place.
fn upmap_below(
    mapping: &Mapping,
    child: usize,
    input: usize,
    output: usize,
    place: &[u32],
) -> Result<Moved, Refusal>
    requires { (child < mapping.now.elements.count) × (input < mapping.now.elements.count) × (output < mapping.now.elements.count) }
    ensures { MovedFrom mapping.now.elements.count mapping.now.elements.table.now mapping.now.elements.source.now mapping.now.map.now input output child (backward (length place.now) place.now) result }
{
    let elements = &mapping.elements;
    let mut trail = [0u32; 2049];
    let steps = plan_mapping::upmap_to_ancestor(
        elements.table,
        mapping.map,
        elements.count,
        input,
        output,
        &mut trail,
    )?;
    let x = descend(elements, output, &trail[..steps]).ok_or(Refusal::Unmapped)?;
    let element = land(elements, child, x, place).ok_or(Refusal::Unmapped)?;
    Ok(Moved { element, steps })
}

// Rust: SyntaxMapping::upmap_child, SyntaxMapping::upmap_child_element. Where `child` goes when `input` is replaced by `output`. Where the Rust panics: 9.
pub fn upmap_child(
    mapping: &Mapping,
    child: usize,
    input: usize,
    output: usize,
) -> Result<Moved, Refusal>
    requires { (child < mapping.now.elements.count) × (input < mapping.now.elements.count) × (output < mapping.now.elements.count) }
    ensures { MovedTo mapping.now.elements.count mapping.now.elements.table.now mapping.now.elements.source.now mapping.now.map.now input output child result }
{
    let elements = &mapping.elements;
    let mut place = [0u32; 64];
    let depth = plan_mapping::place_below(
        elements.table,
        elements.count,
        input,
        child,
        &mut place,
    ).ok_or(Refusal::Unmapped)?;
    upmap_below(mapping, child, input, output, &place[..depth])
}

// The nearest ancestor of `e`, or `e` itself, that is mapped.
fn nearest_mapped(mapping: &Mapping, e: usize) -> Option<usize>
    requires { e < mapping.now.elements.count }
    ensures { Nearest mapping.now.elements.count mapping.now.elements.table.now mapping.now.map.now e result }
{
    let mut at = e;
    // A climb has no bound to count to but its elements: as a range of steps it would owe a case behind it that never comes.
    while words::word(mapping.map, at) == 0 {
        at = entry(mapping.elements.table, at, read_element_table::PARENT).checked_sub(1)?;
    }
    Some(at)
}

// One move of `e`, which stands at or below `a`, to the same place under the output of `a`. The Rust maps to the parent of the output; where that is `a`
// itself, nothing moves and it loops: 10.
fn upmap_from(mapping: &Mapping, a: usize, e: usize) -> Result<usize, Refusal>
    requires { (a < mapping.now.elements.count) × (e < mapping.now.elements.count) }
    ensures { OneMove mapping.now.elements.count mapping.now.elements.table.now mapping.now.elements.source.now mapping.now.map.now a e result }
{
    let elements = &mapping.elements;
    let table = elements.table;
    let n = elements.count;
    let output = plan_mapping::upmap_node_single(mapping.map, n, a);
    if entry(table, output, read_element_table::PARENT) == a + 1 {
        return Err(Refusal::Endless);
    }
    let mut place = [0u32; 64];
    let depth = plan_mapping::place_below(table, n, a, e, &mut place).ok_or(Refusal::Unmapped)?;
    land(elements, e, output, &place[..depth]).ok_or(Refusal::Unmapped)
}

// Rust: SyntaxMapping::upmap_element. Where a note on `e` settles: it moves until neither its element nor an ancestor is mapped; more moves than there are
// elements must repeat.
pub fn upmap_element(mapping: &Mapping, e: usize) -> Result<usize, Refusal>
    requires { e < mapping.now.elements.count }
    ensures { SettledAt mapping.now.elements.count mapping.now.elements.table.now mapping.now.elements.source.now mapping.now.map.now e result }
{
    let mut at = e;
    // No plainer as a range of moves: what is mapped would be asked once more behind it.
    let mut left = mapping.elements.count;
    loop {
        let Some(a) = nearest_mapped(mapping, at) else {
            return Ok(at);
        };
        if left == 0 {
            return Err(Refusal::Endless);
        }
        at = upmap_from(mapping, a, at)?;
        left -= 1;
    }
}
