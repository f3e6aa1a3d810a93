// The share of text rewritten (document 02, Note 10), from the rows and the changed elements that a run leaves.
// Bounds of one number and an index of what is read stand as clauses: a value around each would be no plainer than its bound.
#![tactic(auto)]

ghost use Rattle.std.specs.Prelude.{◌^◌, ◌≤◌, ◌<◌, length};
ghost use Rattle.share_rows.specs.Promises.{ElementBytes, ChangedText, ChangedTexts, Divided, Shares};

use finish_model::{Left, first_tree, number_at};
use rows_syntax_node::{ROW_WORDS, subtree, text_bytes};
use run_annotations::changed_row;

// Thousandths: whole quotient and exact remainder.
#[derive(Clone, Copy)]
pub struct Thousandths {
    pub quotient: usize,
    pub remainder: usize,
}

// How long the text is of the element at a row, with all that is below it.
fn element_bytes(left: &Left, row: usize) -> usize
    requires { row ≤ left.now.rows.count }
    ensures { ElementBytes left.now.rows.words.now left.now.rows.count row result }
{
    text_bytes(subtree(&left.rows, row))
}

// The same of a changed element, 0 for one that is none of the rows 1 up to `end`.
fn changed_text(left: &Left, end: usize, w: usize) -> usize
    requires { end ≤ left.now.rows.count }
    ensures { ChangedText left.now.rows.words.now left.now.rows.count end w result }
{
    let row = changed_row(w);
    match number_at(row, end) {
        None => 0,
        Some(_) => element_bytes(left, row),
    }
}

// The texts of the changed elements, added up: no byte is counted twice, since none of them lies in another (`ran_apart`).
fn changed_texts(left: &Left, end: usize, changed: &[u32]) -> usize
    requires { (end ≤ left.now.rows.count) × (length changed.now < 2 ^ 16) }
    ensures { ChangedTexts left.now.rows.words.now left.now.rows.count end changed.now result }
{
    changed
        .iter()
        .map(|w| changed_text(left, end, *w as usize))
        .sum()
}

// A part of a text in thousandths; of an empty text 0 and 0. By `checked_div` and `checked_rem` each number would be an `Option`, and the two zeros be said at both.
fn divide(part: usize, all: usize) -> Thousandths
    requires { part < 2 ^ 48 }
    ensures { Divided part all result }
{
    if all == 0 {
        return Thousandths {
            quotient: 0,
            remainder: 0,
        };
    }
    Thousandths {
        quotient: 1000 * part / all,
        remainder: 1000 * part % all,
    }
}

// The share, from the rows of all trees and just the changed elements, as the run leaves them.
pub fn share(left: &Left, changed: &[u32]) -> Thousandths
    requires { length changed.now < 2 ^ 16 }
    ensures { Shares left.now.rows.words.now left.now.rows.count changed.now result }
{
    let tree = first_tree(&left.rows);
    let all = text_bytes(tree);
    let end = tree.len() / ROW_WORDS + 1;
    divide(changed_texts(left, end, changed), all)
}
