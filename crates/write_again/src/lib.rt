// A batch taken apart into its lists, and written again (document 02, Note 2). Its sizes may be beyond their limits: that is the writer's to judge.
// Bounds of one number, the equality of two numbers and room in a lent slice stand as clauses: a value around each would be no plainer than its bound.
#![tactic(auto)]

ghost use Rattle.std.specs.Prelude.{◌≡◌, ◌+◌, ◌*◌, ◌≤◌, length};
ghost use Rattle.write_again.specs.Counted.{word_count, Worded};

use read_layout::Sizes;
use refusals::Refusal;
use write_batch::Work;
use write_layout::Lists;

// Each call word as its operation, its count and its rule number. By number: of each word three lists take a part, and three zips would be longer.
#[tactic(auto, unfolding(definition::specs::Refusals::operation_of, definition::specs::Refusals::count_of, definition::specs::Refusals::rule_of))]
fn part_words(words: &[u32], operations: &mut [u32], counts: &mut [u32], rules: &mut [u32])
    requires { (length words.now ≤ length operations.old) × (length words.now ≤ length counts.old) × (length words.now ≤ length rules.old) }
{
    for (i, word) in words.iter().enumerate() {
        let word = *word as usize;
        operations[i] = read_calls::operation_of(word) as u32;
        counts[i] = read_calls::count_of(word) as u32;
        rules[i] = read_calls::rule_of(word) as u32;
    }
}

// Lists are written, with work slices of their own: three, made twice in all (load_program), which a function over a closure would not shorten.
fn write_lists(lists: &Lists, destination: &mut [u8]) -> Result<usize, Refusal> {
    let mut draft = [0u8; 49180];
    let mut table = [0u32; 16384];
    let mut source = [0u32; 6147];
    let mut work = Work {
        draft: &mut draft,
        table: &mut table,
        source: &mut source,
    };
    write_batch::write_batch(lists, destination, &mut work)
}

// The words of a batch behind its sizes, in which its arrays stand one after another, and its text are written as lists.
fn write_arrays(
    z: Sizes,
    list: &[u32],
    text: &[u8],
    destination: &mut [u8],
) -> Result<usize, Refusal>
    requires { (length list.now ≡ word_count z) × (length list.now ≤ 16384) }
{
    let (kinds, list) = list.split_at(z.elements);
    let (measures, list) = list.split_at(z.elements);
    let (calls, list) = list.split_at(z.calls);
    let (targets, list) = list.split_at(z.calls);
    let (listed, list) = list.split_at(z.listed);
    let (inputs, list) = list.split_at(z.mappings);
    let (outputs, list) = list.split_at(z.mappings);
    let (noted, numbers) = list.split_at(z.notes);
    let mut operations = [0u32; 16384];
    let mut counts = [0u32; 16384];
    let mut rules = [0u32; 16384];
    part_words(calls, &mut operations, &mut counts, &mut rules);
    let lists = Lists {
        trees: z.trees,
        kinds,
        measures,
        text,
        operations: &operations[..z.calls],
        counts: &counts[..z.calls],
        rules: &rules[..z.calls],
        targets,
        listed,
        inputs,
        outputs,
        noted,
        numbers,
    };
    write_lists(&lists, destination)
}

// How many words a batch of these sizes has behind them.
fn word_count(z: Sizes) -> usize
    requires { Worded z }
    ensures { result ≡ word_count z }
{
    2 * (z.elements + z.calls + z.mappings + z.notes) + z.listed
}

// How many bytes it has.
fn byte_count(z: Sizes) -> usize
    requires { Worded z }
    ensures { result ≡ 28 + 4 * word_count z + z.text }
{
    read_layout::ARRAYS + 4 * word_count(z) + z.text
}

// A batch of these sizes, which has all the words and the text that they tell.
fn write_behind(b: &[u8], z: Sizes, destination: &mut [u8]) -> Result<usize, Refusal>
    requires { Worded z × (28 + 4 * word_count z ≤ length b.now) × (length b.now ≤ 65536) }
{
    let n = word_count(z);
    let text = read_layout::ARRAYS + 4 * n;
    let mut list = [0u32; 16384];
    words::read_words(b, read_layout::ARRAYS, n, &mut list, 0);
    write_arrays(z, &list[..n], &b[text..], destination)
}

// A batch is written as the lists that it is laid out from. One whose length is not what its sizes give is laid out from none: 2 without all of its
// sizes, else 4.
pub fn write_again(b: &[u8], destination: &mut [u8]) -> Result<usize, Refusal> {
    if b.len() < read_layout::ARRAYS {
        return Err(Refusal::ShortBatch);
    }
    let z = read_layout::read_sizes(b);
    if byte_count(z) != b.len() {
        return Err(Refusal::Length);
    }
    // A batch that is longer than the list has room for has a size beyond its limit.
    if 65536 < b.len() {
        return Err(Refusal::Lists);
    }
    write_behind(b, z, destination)
}
