// A batch whose arrays stand where its layout says, as one value.

ghost use Rattle.std.specs.Prelude.{◌≡◌, ◌+◌, ◌*◌, ◌≤◌, length};
ghost use Rattle.read_layout.specs.Layout.{Within};

use crate::Layout;
use words::WordList;

// The bytes of a batch, and its layout.
#[derive(Clone, Copy)]
pub struct Batch<'a> {
    pub bytes: &'a [u8],
    pub layout: Layout,
    pub ghost within: { Within bytes.now layout },
}

impl<'a> Batch<'a> {
    ghost use Rattle.words.specs.List.{words_of};
    ghost use Rattle.read_layout.specs.Held.{arrays_of};

    // The `count` words of its bytes from `at` on. Below it one method for each list: one function of a kind of list would tell in its promise, by seven cases, what these say.
    fn words_at(&self, at: usize, count: usize) -> WordList<'a>
        requires { at + 4 * count ≤ length self.now.bytes.now }
        ensures { (result.bytes.now ≡ self.now.bytes.now) × (result.at ≡ at) × (result.count ≡ count) }
    {
        let bytes = self.bytes;
        WordList { bytes, at, count }
    }

    // The call words.
    #[tactic(auto, unfolding(crate::specs::Layout::arrays_at))]
    pub fn calls(&self) -> WordList<'a>
        ensures { (words_of result ≡ (arrays_of self.now).calls) × (result.count ≡ self.now.layout.sizes.calls) }
    {
        self.words_at(self.layout.words, self.layout.sizes.calls)
    }

    // The targets of the calls.
    #[tactic(auto, unfolding(crate::specs::Layout::arrays_at))]
    pub fn targets(&self) -> WordList<'a>
        ensures { (words_of result ≡ (arrays_of self.now).targets) × (result.count ≡ self.now.layout.sizes.calls) }
    {
        self.words_at(self.layout.targets, self.layout.sizes.calls)
    }

    // The elements that the calls list.
    #[tactic(auto, unfolding(crate::specs::Layout::arrays_at))]
    pub fn listed(&self) -> WordList<'a>
        ensures { (words_of result ≡ (arrays_of self.now).listed) × (result.count ≡ self.now.layout.sizes.listed) }
    {
        self.words_at(self.layout.list, self.layout.sizes.listed)
    }

    // What is mapped.
    #[tactic(auto, unfolding(crate::specs::Layout::arrays_at))]
    pub fn inputs(&self) -> WordList<'a>
        ensures { (words_of result ≡ (arrays_of self.now).inputs) × (result.count ≡ self.now.layout.sizes.mappings) }
    {
        self.words_at(self.layout.inputs, self.layout.sizes.mappings)
    }

    // What it is mapped to.
    #[tactic(auto, unfolding(crate::specs::Layout::arrays_at))]
    pub fn outputs(&self) -> WordList<'a>
        ensures { (words_of result ≡ (arrays_of self.now).outputs) × (result.count ≡ self.now.layout.sizes.mappings) }
    {
        self.words_at(self.layout.outputs, self.layout.sizes.mappings)
    }

    // The elements that carry a note.
    #[tactic(auto, unfolding(crate::specs::Layout::arrays_at))]
    pub fn noted(&self) -> WordList<'a>
        ensures { (words_of result ≡ (arrays_of self.now).noted) × (result.count ≡ self.now.layout.sizes.notes) }
    {
        self.words_at(self.layout.noted, self.layout.sizes.notes)
    }

    // The numbers of the notes.
    #[tactic(auto, unfolding(crate::specs::Layout::arrays_at))]
    pub fn numbers(&self) -> WordList<'a>
        ensures { (words_of result ≡ (arrays_of self.now).numbers) × (result.count ≡ self.now.layout.sizes.notes) }
    {
        self.words_at(self.layout.numbers, self.layout.sizes.notes)
    }
}
