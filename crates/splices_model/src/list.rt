// A list of splices to be read, as one value.

ghost use Rattle.std.specs.Prelude.{◌≡◌, ◌+◌, ◌*◌, ◌^◌, ◌≤◌, ◌<◌, length};

use rows_syntax_node::ROW_WORDS;
use words::word;

// How many words a splice has; its number is the first, at `SPLICE_WORDS * i`.
pub const SPLICE_WORDS: usize = 6;
// The row of its parent in the old tree.
const PARENT: usize = 1;
// The run of its parent's children.
const FROM: usize = 2;

const TO: usize = 3;
// Where its prepared rows start, and how many they are.
const START: usize = 4;

const ROWS: usize = 5;

// What the words of a splice tell.
#[derive(Clone, Copy)]
pub struct Splice {
    pub number: usize,
    pub parent: usize,
    pub from: usize,
    pub to: usize,
    pub start: usize,
    pub rows: usize,
}

// The splices of a list, which tell where their prepared rows stand but have them not. Their count stands beside the words, as in `words::WordList`: as a quotient of
// their length it would be no plainer in any clause.
#[derive(Clone, Copy)]
pub struct Splices<'a> {
    pub count: usize,
    pub words: &'a [u32],
    pub ghost long: { 6 * count ≤ length words.now },
}

impl Splices<'_> {
    ghost use Rattle.splices_model.specs.Reading.{told};

    // Splice `i`.
    pub fn get(&self, i: usize) -> Splice
        requires { i < self.now.count }
        ensures told { result ≡ told self.now.words.now i }
        ensures small { (result.from < 2 ^ 32) × (result.to < 2 ^ 32) × (result.start < 2 ^ 32) × (result.rows < 2 ^ 32) }
    {
        let at = SPLICE_WORDS * i;
        let words = self.words;
        Splice {
            number: word(words, at),
            parent: word(words, at + PARENT),
            from: word(words, at + FROM),
            to: word(words, at + TO),
            start: word(words, at + START),
            rows: word(words, at + ROWS),
        }
    }
}

// The same with the prepared rows of all of them.
#[derive(Clone, Copy)]
pub struct SpliceList<'a> {
    pub splices: Splices<'a>,
    pub prepared: &'a [u32],
    pub ghost few: { splices.count ≤ 2 ^ 15 },
    pub ghost short: { length prepared.now < 3 * 2 ^ 16 },
}

impl<'a> SpliceList<'a> {
    ghost use Rattle.splices_model.specs.Cuts.{part_at};
    ghost use Rattle.splices_model.specs.Reading.{Stocked};

    // The prepared rows of splice `i`.
    pub fn part(&self, i: usize) -> &'a [u32]
        requires { (i < self.now.splices.count) × Stocked self.now.splices.words.now self.now.prepared.now i }
        ensures { result.now ≡ part_at self.now.splices.words.now self.now.prepared.now i }
    {
        let splice = self.splices.get(i);
        let from = ROW_WORDS * splice.start;
        let to = from + ROW_WORDS * splice.rows;
        &self.prepared[from..to]
    }
}
