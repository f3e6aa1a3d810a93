// Why a call is refused: one error type for the numbers of documents 01 and 02.
#![tactic(auto)]

ghost use Rattle.std.specs.Prelude.{◌≡◌};
ghost use Rattle.refusals.specs.Numbers.{number};

use std::error::Error;
use std::fmt;

// The refusals, by their numbers in the documents. A checked claim and the memory of a series use some of them for their own lists.
#[derive(Clone, Copy, Debug, PartialEq, Eq)]
pub enum Refusal {
    // A work slice is too short.
    ShortWork = 1,
    // A batch is too short for its sizes.
    ShortBatch = 2,
    // A size is beyond its limits.
    Size = 3,
    // A length differs from what the sizes give.
    Length = 4,
    // The elements do not spell the trees.
    Spelling = 5,
    // A call is not well formed.
    Call = 6,
    // A mapping or a note is not well formed.
    Name = 7,
    // Replacements overlap.
    Overlap = 8,
    // A dependent call or a note cannot be mapped.
    Unmapped = 9,
    // A climb never ends.
    Endless = 10,
    // A step's target is gone.
    Gone = 11,
    // The trees outgrow their limits.
    Large = 12,
    // The result slice is too short.
    ShortResult = 13,
    // No batch is laid out from these lists.
    Lists = 14,
    // The destination is too short.
    ShortDestination = 15,
    // A call lists too many elements.
    Listed = 16,
    // There is no such edge rule.
    Edge = 17,
    // The choice of stronger rules first is neither off nor on.
    Stronger = 18,
    // A claim names no element.
    ClaimedName = 19,
    // There are too many bookmarks, or one is given twice.
    Bookmarks = 20,
    // A bookmark leads to no element.
    Astray = 21,
    // The batch's tree is not the one left before.
    AnotherTree = 22,
}

impl Refusal {
    // Its number in the documents.
    pub fn number(self) -> usize
        ensures { result ≡ number self }
    {
        self as usize
    }
}

impl fmt::Display for Refusal {
    fn fmt<W: fmt::Write>(&self, f: &mut fmt::Formatter<W>) -> fmt::Result {
        write!(f, "refused {}", self.number())
    }
}

impl Error for Refusal {}
