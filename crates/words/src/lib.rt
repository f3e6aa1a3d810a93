// Words in byte slices; slices of words copied, moved and spliced.
// Room in a lent slice and an index of what is read stand as clauses: a value around each would be no plainer than its bound.
#![tactic(auto)]

ghost use Rattle.std.specs.Prelude.{◌≡◌, ◌++◌, ◌+◌, ◌-◌, ◌*◌, ◌^◌, ◌≤◌, ◌<◌, length, get_or, take, drop};
ghost use Rattle.std.proofs.Math.Seq.{paste};
ghost use Rattle.std.specs.List.{AllByRecursion};
ghost use Rattle.definition.specs.Words.{word as word_of, words, bytes, written};
ghost use Rattle.words.specs.Parts.{spliced};

mod list;

pub use list::WordList;

// The least kind of a node; those below are tokens'.
pub const NODE_KIND: usize = 0x8000_0000;

// The word at `i`.
pub fn word(s: &[u32], i: usize) -> usize
    requires { i < length s.now }
    ensures { (result ≡ get_or s.now i 0) × (result < 2 ^ 32) }
{
    s[i] as usize
}

// Word `i` of a slice, 0 past the end: a number, as it is what a list of the definition has there. Beside `word`, whose index is proved: there one past the end is refused.
pub fn word_or_zero(s: &[u32], i: usize) -> usize
    ensures { (result ≡ get_or s.now i 0) × (result < 2 ^ 32) }
{
    s.get(i).map_or(0, |w| *w as usize)
}

// The word that stands at `at` in some bytes.
pub fn read_word(b: &[u8], at: usize) -> usize
    requires { at + 4 ≤ length b.now }
    ensures { (result ≡ word_of (drop at b.now)) × (result < 2 ^ 32) }
{
    u32::from_le_bytes([b[at], b[at + 1], b[at + 2], b[at + 3]]) as usize
}

// The word `w` is written at `at`.
pub fn write_word(b: &mut [u8], at: usize, w: usize)
    requires { at + 4 ≤ length b.old }
    ensures { b.new ≡ paste b.old at (bytes w) 4 }
{
    copy_in(b, at, &w.to_le_bytes()[..4]);
}

// The `n` words that stand in `b` from `at` on are written at `to`. By the place: of `chunks_exact`
// the library has no law. `b`, `at` and `n` are no `WordList`: each caller would make one for this one call.
pub fn read_words(b: &[u8], at: usize, n: usize, s: &mut [u32], to: usize)
    requires { (at + 4 * n ≤ length b.now) × (to + n ≤ length s.old) }
    ensures { s.new ≡ paste s.old to (words n (drop at b.now)) n }
{
    for i in 0..n {
        s[to + i] = read_word(b, at + 4 * i) as u32;
    }
}

// The bytes of the words `s` are written at `at`.
pub fn write_words(b: &mut [u8], at: usize, s: &[u32])
    requires { at + 4 * length s.now ≤ length b.old }
    ensures { b.new ≡ paste b.old at (written s.now) (4 * length s.now) }
{
    for (i, w) in s.iter().enumerate() {
        write_word(b, at + 4 * i, *w as usize);
    }
}

// The elements of `src` are written at `at`. By hand, as are moves: `copy_from_slice` and `copy_within` call `memmove`, which who links a library for C may not have (DECISIONS 85).
pub fn copy_in<T: Copy>(s: &mut [T], at: usize, src: &[T])
    requires { at + length src.now ≤ length s.old }
    ensures { s.new ≡ paste s.old at src.now (length src.now) }
{
    for (i, x) in src.iter().enumerate() {
        s[at + i] = *x;
    }
}

// The `len` words at `from` are written at a lower place, from the first on: what is still to be read is as it was.
fn move_down(s: &mut [u32], from: usize, to: usize, len: usize)
    requires { (to ≤ from) × (from + len ≤ length s.old) }
    ensures { s.new ≡ paste s.old to (drop from s.old) len }
{
    for i in 0..len {
        s[to + i] = s[from + i];
    }
}

// The same to a higher place, from the last on.
fn move_up(s: &mut [u32], from: usize, to: usize, len: usize)
    requires { (from ≤ to) × (to + len ≤ length s.old) }
    ensures { s.new ≡ paste s.old to (drop from s.old) len }
{
    for i in (0..len).rev() {
        s[to + i] = s[from + i];
    }
}

// The `len` words at `from` are written at `to`; the two places may overlap.
pub fn move_words(s: &mut [u32], from: usize, to: usize, len: usize)
    requires { (from + len ≤ length s.old) × (to + len ≤ length s.old) }
    ensures { s.new ≡ paste s.old to (drop from s.old) len }
{
    // Most splices put in as many words as they take out: then nothing moves.
    if to < from {
        move_down(s, from, to, len)
    } else if from < to {
        move_up(s, from, to, len)
    }
}

// Of the first `n` words those from `p` up to `q` give way to `ins`; what stands beyond the new end is as it was.
// The count `n` stands beside the slice, which is lent, and longer than what is in use (fixed memory).
pub fn splice_words(s: &mut [u32], n: usize, p: usize, q: usize, ins: &[u32])
    requires { (p ≤ q) × (q ≤ n) × (n ≤ length s.old) × (p + length ins.now + (n - q) ≤ length s.old) }
    ensures { s.new ≡ spliced p q ins.now (take n s.old) ++ drop (p + length ins.now + (n - q)) s.old }
{
    move_words(s, q, p + ins.len(), n - q);
    copy_in(s, p, ins);
}

// Each number of `row` is written as a word, the first at `at`.
pub fn store(s: &mut [u32], at: usize, row: &[usize])
    requires { (at + length row.now ≤ length s.old) × AllByRecursion (λ x. x < 2 ^ 32) row.now }
    ensures { s.new ≡ paste s.old at row.now (length row.now) }
{
    for (i, x) in row.iter().enumerate() {
        s[at + i] = *x as u32;
    }
}
