// What the edit program prints of an answer, written into a lent slice.
// Room in a lent slice and bounds of one number stand as clauses: a value around each would be no plainer than its bound.
// Each `put_*` is told a place in the output and answers the next one, rather than take what is left of it: so each promise is of the whole output (`Put`), and one lemma joins two.
// Of a part, each caller would say besides that what stands before it is as it was.
#![tactic(auto)]

ghost use Rattle.std.specs.Prelude.{◌≡◌, ◌+◌, ◌*◌, ◌≤◌, ◌<◌, length};
ghost use mathlib.Core.List.{◌∷◌, [], ◌++◌, flat_map};
ghost use Rattle.definition.specs.Printed.{digits, hex_digit, hex, element_line, text_line, print};
ghost use Rattle.definition.specs.Basics.{refused, gives};
ghost use Rattle.result_laws.specs.Decoded.{decoded, text_at};
ghost use Rattle.edit_print.specs.Printable.{Printable};
ghost use Rattle.edit_print.specs.Lines.{Put, spaced, line_of, pair_line, changed_line, note_line, array_lines};
ghost use Rattle.edit_print.specs.Held.{pairs_of};

mod pairs;

use pairs::Pairs;
use result_laws::ARRAYS;

// One byte is written at `at`.
#[tactic(auto, using(crate::proofs::Turns::put_one))]
fn put(out: &mut [u8], at: usize, byte: u8) -> usize
    requires { at < length out.old }
    ensures { Put out.old at (byte ∷ []) out.new result }
{
    out[at] = byte;
    at + 1
}

// The last `k` digits of `n` in decimal, with no zeros in front, are written at `at`. By hand: `Display` writes all digits, so its text would go into a buffer first, and the last `k` bytes of that to `out`: no plainer.
pub fn put_digits(out: &mut [u8], at: usize, n: usize, k: usize) -> usize
    requires { at + k ≤ length out.old }
    ensures { Put out.old at (digits k n) out.new result }
{
    if k == 0 {
        return at;
    }
    if n < 10 {
        return put(out, at, b'0' + n as u8);
    }
    let end = put_digits(out, at, n / 10, k - 1);
    put(out, end, b'0' + (n % 10) as u8)
}

// A number is written at `at`, after a space.
fn put_number(out: &mut [u8], at: usize, n: usize) -> usize
    requires { at + 11 ≤ length out.old }
    ensures { Put out.old at (spaced n) out.new result }
{
    let to = put(out, at, b' ');
    put_digits(out, to, n, 10)
}

// Each number of `ns`, after a space, is written at `at`.
fn put_numbers(out: &mut [u8], at: usize, ns: &[usize]) -> usize
    requires { at + 11 * length ns.now ≤ length out.old }
    ensures { Put out.old at (flat_map spaced ns.now) out.new result }
{
    let mut to = at;
    for n in ns {
        to = put_number(out, to, *n);
    }
    to
}

// A line is written at `at`: a word, and numbers, each after a space.
pub fn put_line(out: &mut [u8], at: usize, name: &[u8], ns: &[usize]) -> usize
    requires { at + length name.now + 11 * length ns.now + 1 ≤ length out.old }
    ensures { Put out.old at (line_of name.now ns.now) out.new result }
{
    words::copy_in(out, at, name);
    let end = put_numbers(out, at + name.len(), ns);
    put(out, end, b'\n')
}

// A digit in hexadecimal. By hand: `char::from_digit` answers an `Option` of a `char`, to be turned into a byte: no plainer.
#[tactic(auto, using(crate::proofs::Turns::low_digit, crate::proofs::Turns::high_digit))]
fn hex_digit(n: u8) -> u8
    requires { n < 16 }
    ensures { result ≡ hex_digit n }
{
    if n < 10 { b'0' + n } else { b'a' - 10 + n }
}

// A byte in hexadecimal is written at `at`.
fn put_hex(out: &mut [u8], at: usize, byte: u8) -> usize
    requires { at + 2 ≤ length out.old }
    ensures { Put out.old at (hex byte) out.new result }
{
    let to = put(out, at, hex_digit(byte / 16));
    put(out, to, hex_digit(byte % 16))
}

// Bytes in hexadecimal are written at `at`.
fn put_bytes(out: &mut [u8], at: usize, text: &[u8]) -> usize
    requires { at + 2 * length text.now ≤ length out.old }
    ensures { Put out.old at (flat_map hex text.now) out.new result }
{
    let mut to = at;
    for byte in text {
        to = put_hex(out, to, *byte);
    }
    to
}

// The line of the text is written at `at`.
fn put_text(out: &mut [u8], at: usize, text: &[u8]) -> usize
    requires { at + 2 * length text.now + 6 ≤ length out.old }
    ensures { Put out.old at (text_line text.now) out.new result }
{
    if text.is_empty() {
        return put_line(out, at, b"text", &[]);
    }
    words::copy_in(out, at, b"text ");
    let to = put_bytes(out, at + 5, text);
    put(out, to, b'\n')
}

// The line of an element is written at `at`.
fn put_element(out: &mut [u8], at: usize, kind: usize, measure: usize) -> usize
    requires { at + 24 ≤ length out.old }
    ensures { Put out.old at (element_line (kind, measure)) out.new result }
{
    if kind < words::NODE_KIND {
        return put_line(out, at, b"t", &[kind % 65536, measure]);
    }
    put_line(out, at, b"n", &[kind % 65536, measure])
}

// The lines of elements, each a kind word and a measure, are written at `at`. Beside `put_pairs`: over a closure that writes one line, the contract would name each line's text, its most bytes and what the closure asks, and be longer than the loop.
fn put_elements(out: &mut [u8], at: usize, elements: &Pairs) -> usize
    requires { at + 24 * elements.now.count ≤ length out.old }
    ensures { Put out.old at (flat_map element_line (pairs_of elements.now)) out.new result }
{
    let mut to = at;
    for i in 0..elements.count {
        let (kind, measure) = elements.get(i);
        to = put_element(out, to, kind, measure);
    }
    to
}

// For each pair a line of a name and its two numbers is written at `at`.
fn put_pairs(out: &mut [u8], at: usize, name: &[u8], pairs: &Pairs) -> usize
    requires { at + (length name.now + 23) * pairs.now.count ≤ length out.old }
    ensures { Put out.old at (flat_map (pair_line name.now) (pairs_of pairs.now)) out.new result }
{
    let mut to = at;
    for i in 0..pairs.count {
        let (first, second) = pairs.get(i);
        to = put_line(out, to, name, &[first, second]);
    }
    to
}

// The elements' lines and the text's are written at `at`.
fn put_tree(out: &mut [u8], at: usize, elements: &Pairs, text: &[u8]) -> usize
    requires { at + 24 * elements.now.count + (2 * length text.now + 6) ≤ length out.old }
    ensures { Put out.old at (flat_map element_line (pairs_of elements.now) ++ text_line text.now) out.new result }
{
    let to = put_elements(out, at, elements);
    put_text(out, to, text)
}

// The lines of changed elements and notes are written at `at`.
fn put_found(out: &mut [u8], at: usize, changed: &Pairs, notes: &Pairs) -> usize
    requires { at + 30 * changed.now.count + 27 * notes.now.count ≤ length out.old }
    ensures { Put out.old at (flat_map changed_line (pairs_of changed.now) ++ flat_map note_line (pairs_of notes.now)) out.new result }
{
    let to = put_pairs(out, at, b"changed", changed);
    put_pairs(out, to, b"note", notes)
}

// The lines of the arrays and of the text, behind the sizes in `b`, are written at `at`. The four counts are sizes that the result states, and none is the length of `b`.
fn put_arrays(
    out: &mut [u8],
    at: usize,
    b: &[u8],
    element_count: usize,
    text_length: usize,
    changed_count: usize,
    note_count: usize,
) -> usize
    requires { (text_at element_count changed_count note_count + text_length ≤ length b.now) × (at + 24 * element_count + 2 * text_length + 6 + 30 * changed_count + 27 * note_count ≤ length out.old) }
    ensures { Put out.old at (array_lines b.now element_count text_length changed_count note_count) out.new result }
{
    let changed_at = ARRAYS + 8 * element_count;
    let notes_at = changed_at + 8 * changed_count;
    let text_at = notes_at + 8 * note_count;
    let elements = Pairs {
        bytes: b,
        at: ARRAYS,
        count: element_count,
    };
    let changed = Pairs {
        bytes: b,
        at: changed_at,
        count: changed_count,
    };
    let notes = Pairs {
        bytes: b,
        at: notes_at,
        count: note_count,
    };
    let treed = put_tree(out, at, &elements, &b[text_at..text_at + text_length]);
    put_found(out, treed, &changed, &notes)
}

// What is printed of the result whose bytes are `b` is written at the front: its sizes, and what they tell behind them.
pub fn print_result(out: &mut [u8], b: &[u8]) -> usize
    requires { Printable b.now (length out.old) }
    ensures { Put out.old 0 (print (gives (decoded b.now))) out.new result }
{
    let elements = words::read_word(b, result_laws::ELEMENTS);
    let text = words::read_word(b, result_laws::TEXT);
    let changed = words::read_word(b, result_laws::CHANGED);
    let notes = words::read_word(b, result_laws::NOTES);
    let discarded = words::read_word(b, result_laws::DISCARDED);
    let climbs = words::read_word(b, result_laws::CLIMBS);
    let sized = put_line(
        out,
        0,
        b"ok",
        &[elements, text, changed, notes, discarded, climbs],
    );
    put_arrays(out, sized, b, elements, text, changed, notes)
}

// What is printed of a refusal is written at the front. A number, since any is printed: a `Refusal` would ask more of callers.
pub fn print_refusal(out: &mut [u8], number: usize) -> usize
    requires { 19 ≤ length out.old }
    ensures { Put out.old 0 (print (refused number)) out.new result }
{
    put_line(out, 0, b"refused", &[number])
}
