// The clauses of the checker, each in one pass over the pairs or the new elements.
// What they ask of words stands as clauses: it is of a table and the pairs or the partners together (`Reached`, `Climbed`, `Ready`), so a fact of no one value.
#![tactic(auto)]

ghost use Rattle.std.specs.Prelude.{◌≡◌, ◌+◌, ◌*◌, ◌≤◌, ◌<◌, leb, length};
ghost use mathlib.Core.List.{zip};
ghost use Rattle.orders.specs.Lists.{any};
ghost use Rattle.check_laws.specs.Check.{every, same_bytes};
ghost use Rattle.check_model.specs.Clauses.{marked, alike as alike_in, parents_meet, rises, accounted as accounted_in, each, judged_by};
ghost use Rattle.check_model.specs.Pairing.{Below};
ghost use Rattle.check_clauses.specs.Asked.{PairsUp, Reaches, Reached, Climbs, Linked, Climbed, Ready};

mod pairs;

use check_table::{END, KIND, PARENT, START};
pub use pairs::{Pairs, Side};

// 19: whether a number of the list is none of `n` elements. Beside `write_layout::all_below`: one is any, one is all, each by its own definition.
pub fn beyond(list: &[u32], n: usize) -> bool
    ensures { result ≡ any (leb n) list.now }
{
    list.iter().any(|x| n <= *x as usize)
}

// Each pair's old element + 1 is written as the partner of its new one, a word of a lent slice, 0 for none; false where that has one already. A `for`, since each turn writes.
pub fn pair_up(pairs: &Pairs, partners: &mut [u32]) -> bool
    requires { Below 4096 pairs.now.olds.now × Below (length partners.old) pairs.now.news.now }
    ensures { PairsUp (zip pairs.now.olds.now pairs.now.news.now) partners.old result partners.new }
{
    for (x, y) in pairs.olds.iter().zip(pairs.news) {
        let y = *y as usize;
        if partners[y] != 0 {
            return false;
        }
        partners[y] = *x + 1;
    }
    true
}

// Each changed element is marked.
pub fn mark_all(changed: &[u32], marks: &mut [u32])
    requires { Below (length marks.old) changed.now }
    ensures { marks.new ≡ marked marks.old changed.now }
{
    for y in changed {
        marks[*y as usize] = 1;
    }
}

// Whether two texts are the same: the library's comparison, by the definition that the clauses and a series' trees speak of, so that its law is asked for once.
pub fn same_bytes(a: &[u8], b: &[u8]) -> bool
    ensures { result ≡ same_bytes a.now b.now }
{
    a == b
}

// 3, of one pair: equal kind words and, for tokens, equal text.
#[tactic(auto, unfolding(check_model::specs::Clauses::alike, check_model::specs::Clauses::part, definition::specs::Elements::is_node))]
fn alike(old: &Side, new: &Side, x: usize, y: usize) -> bool
    requires { Reaches old.now.table.now (length old.now.text.now) x × Reaches new.now.table.now (length new.now.text.now) y }
    ensures { result ≡ alike_in old.now.table.now new.now.table.now old.now.text.now new.now.text.now (x, y) }
{
    let kind = check_table::entry(old.table, x, KIND);
    if kind != check_table::entry(new.table, y, KIND) {
        return false;
    }
    if words::NODE_KIND <= kind {
        return true;
    }
    let a = check_table::entry(old.table, x, START);
    let b = check_table::entry(old.table, x, END);
    let c = check_table::entry(new.table, y, START);
    let d = check_table::entry(new.table, y, END);
    same_bytes(&old.text[a..b], &new.text[c..d])
}

// 3, of all pairs.
fn all_alike(pairs: &Pairs, old: &Side, new: &Side) -> bool
    requires { Reached old.now.table.now (length old.now.text.now) pairs.now.olds.now × Reached new.now.table.now (length new.now.text.now) pairs.now.news.now }
    ensures { result ≡ every (alike_in old.now.table.now new.now.table.now old.now.text.now new.now.text.now) (zip pairs.now.olds.now pairs.now.news.now) }
{
    pairs
        .olds
        .iter()
        .zip(pairs.news)
        .all(|(x, y)| alike(old, new, *x as usize, *y as usize))
}

// 4, of one pair: both have no parent, or their parents are a pair. A word holds a parent's number + 1, 0 for none.
#[tactic(auto, unfolding(check_model::specs::Clauses::parents_meet, check_model::specs::Clauses::meet))]
fn parents_meet(old: &[u32], new: &[u32], partners: &[u32], x: usize, y: usize) -> bool
    requires { (4 * x + 4 ≤ length old.now) × Climbs new.now (length partners.now) y }
    ensures { result ≡ parents_meet old.now new.now partners.now (x, y) }
{
    let p = check_table::entry(old, x, PARENT);
    match check_table::entry(new, y, PARENT).checked_sub(1) {
        None => p == 0,
        Some(q) => p != 0 && words::word(partners, q) == p,
    }
}

// 4, of all pairs.
fn all_parents_meet(pairs: &Pairs, old: &[u32], new: &[u32], partners: &[u32]) -> bool
    requires { Climbed old.now pairs.now.olds.now × Climbed new.now pairs.now.news.now × Below (length partners.now) pairs.now.news.now }
    ensures { result ≡ every (parents_meet old.now new.now partners.now) (zip pairs.now.olds.now pairs.now.news.now) }
{
    pairs.olds.iter().zip(pairs.news).all(|(x, y)| parents_meet(
        old,
        new,
        partners,
        *x as usize,
        *y as usize,
    ))
}

// 5: whether the partners rise. A `for`, since each turn compares with the last partner before it: a chain would be `filter` and
// `is_sorted_by`, whose laws are longer than the loop's.
fn rising(partners: &[u32]) -> bool
    ensures { result ≡ rises 0 partners.now }
{
    let mut last = 0;
    for w in partners {
        if *w != 0 {
            if *w <= last {
                return false;
            }
            last = *w;
        }
    }
    true
}

// 6, of one new element: with a partner it is not marked; without one it is, or its parent has none either.
#[tactic(auto, unfolding(check_model::specs::Clauses::accounted, check_model::specs::Clauses::loose))]
fn accounted(new: &[u32], partners: &[u32], marks: &[u32], y: usize) -> bool
    requires { (y < length partners.now) × (y < length marks.now) × Climbs new.now (length partners.now) y }
    ensures { result ≡ accounted_in new.now partners.now marks.now y }
{
    let mark = words::word(marks, y);
    if words::word(partners, y) != 0 {
        return mark == 0;
    }
    if mark != 0 {
        return true;
    }
    match check_table::entry(new, y, PARENT).checked_sub(1) {
        None => false,
        Some(p) => words::word(partners, p) == 0,
    }
}

// 6, of all `n` new elements: a count, since the three slices are lent, and longer than what is in use.
fn all_accounted(new: &[u32], partners: &[u32], marks: &[u32], n: usize) -> bool
    requires { (n ≤ length partners.now) × (n ≤ length marks.now) × Linked new.now n }
    ensures { result ≡ each (accounted_in new.now partners.now marks.now) 0 n }
{
    (0..n).all(|y| accounted(new, partners, marks, y))
}

// All clauses, where `pair_up` found no new element twice and wrote the partners, and `mark_all` the marks, of `n` new elements.
#[tactic(auto, unfolding(check_model::specs::Clauses::judged_by))]
pub fn judge(
    pairs: &Pairs,
    old: &Side,
    new: &Side,
    partners: &[u32],
    marks: &[u32],
    n: usize,
) -> bool
    requires { Ready pairs.now.olds.now pairs.now.news.now old.now.table.now new.now.table.now (length old.now.text.now) (length new.now.text.now) (length partners.now) (length marks.now) n }
    ensures { result ≡ judged_by old.now.table.now new.now.table.now old.now.text.now new.now.text.now n (zip pairs.now.olds.now pairs.now.news.now) partners.now marks.now }
{
    words::word(partners, 0) == 1
        && all_alike(pairs, old, new)
        && all_parents_meet(pairs, old.table, new.table, partners)
        && rising(&partners[..n])
        && all_accounted(new.table, partners, marks, n)
}
