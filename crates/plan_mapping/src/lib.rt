// Mappings: the mapped node of an element, its place below another, and the climb from a replaced node to its replacement.
// Bounds of one number stand as clauses: a value around each would be no plainer than its bound.
#![tactic(auto)]

ghost use Rattle.std.specs.Prelude.{◌≡◌, ◌<◌, length};
ghost use Rattle.std.proofs.Math.Option.{get_or};
ghost use mathlib.Core.List.{zip};
ghost use Rattle.read_element_table.specs.Wellformed.{Lines};
ghost use Rattle.words.specs.List.{words_of};
ghost use Rattle.plan_mapping.specs.Mapped.{mapped_by, Mapped, Bounded, mapping_words};
ghost use Rattle.plan_mapping.specs.Answers.{Placed, Climbed};

use refusals::Refusal;
use words::WordList;

// Rust: SyntaxMapping::add_mapping, SyntaxMapping::merge. The array of the mappings with these inputs and outputs: the later mapping of one input wins. By number:
// words in bytes have no iterator, and one of our own would need its laws proved.
pub fn fill_mapping(inputs: &WordList, outputs: &WordList, map: &mut [u32])
    requires bounded { Bounded (length map.old) 2048 (zip (words_of inputs.now) (words_of outputs.now)) }
    ensures { map.new ≡ mapping_words (length map.old) (zip (words_of inputs.now) (words_of outputs.now)) }
{
    map.fill(0);
    for i in 0..inputs.count.min(outputs.count) {
        map[inputs.get(i)] = (outputs.get(i) + 1) as u32;
    }
}

// Rust: SyntaxMapping::upmap_node_single. The mapped node of element `e`, or `e`: one step along the mappings. Here and in `place_below` only the contract reads `n`: as a
// ghost parameter no other argument of a call would tell it; a promise for any `n` leaves its callers each bound to prove by hand (tried: six answers).
pub fn upmap_node_single(map: &[u32], n: usize, e: usize) -> usize
    requires mapped { Mapped n map.now }
    requires e_lt_n { e < n }
    ensures { (result ≡ get_or (mapped_by map.now e) e) × (result < n) }
{
    words::word(map, e).checked_sub(1).unwrap_or(e)
}

// Rust: `to_first_upmap` in SyntaxMapping::upmap_child. How many child numbers lead from `x` down to `e`; none if `e` is neither `x` nor below it. They are
// written to `place`, upward, and so read backward. The table with its count, and no `Elements`: it asks for `Lines` alone, of any rows.
pub fn place_below(
    table: &[u32],
    n: usize,
    x: usize,
    e: usize,
    place: &mut [u32; 64],
) -> Option<usize>
    requires lines { Lines n table.now }
    requires x_lt_n { (x < n) × (e < n) × (length place.old ≡ 64) }
    ensures { Placed n table.now x e result place.new }
{
    let mut at = e;
    let mut k: usize = 0;
    // A climb has no bound to count to but its elements: as a range of 64 steps it would owe a case behind it that never comes.
    while at != x {
        let parent = read_element_table::entry(table, at, read_element_table::PARENT).checked_sub(
            1,
        )?;
        place[k] = table[read_element_table::WORDS * at + read_element_table::CHILD];
        k += 1;
        at = parent;
    }
    Some(k)
}

// Rust: SyntaxMapping::upmap_to_ancestor. The climb from `input`, or its mapped node, to the first parent that is `output`. The child numbers met are
// written to `trail`, upward: how many. Where the Rust would climb for ever, more than `n` steps must repeat: 10. By the table too (`place_below`).
pub fn upmap_to_ancestor(
    table: &[u32],
    map: &[u32],
    n: usize,
    input: usize,
    output: usize,
    trail: &mut [u32; 2049],
) -> Result<usize, Refusal>
    requires lines { Lines n table.now }
    requires mapped { Mapped n map.now }
    requires input_lt_n { (input < n) × (length trail.old ≡ 2049) }
    ensures { Climbed n table.now map.now input output result trail.new }
{
    if input == output {
        return Ok(0);
    }
    let mut x = upmap_node_single(map, n, input);
    trail[0] = table[read_element_table::WORDS * x + read_element_table::CHILD];
    let mut k: usize = 1;
    // It is left by its outcome alone, as document 01 tells this climb: a parent that is the replacement, or a refusal.
    loop {
        let parent = read_element_table::entry(table, x, read_element_table::PARENT)
            .checked_sub(1)
            .ok_or(Refusal::Unmapped)?;
        if n < k {
            return Err(Refusal::Endless);
        }
        let next = upmap_node_single(map, n, parent);
        if parent == output {
            break;
        }
        trail[k] = table[read_element_table::WORDS * next + read_element_table::CHILD];
        x = next;
        k += 1;
    }
    Ok(k)
}
