// What is asked for and answered; the work slices: whether one is too short, all of them cleared, and slices of those lengths made.
#![tactic(auto)]

ghost use Rattle.std.specs.Prelude.{◌≡◌};
ghost use Rattle.definition.specs.Answers.{too_short};
ghost use Rattle.promises.specs.Lent.{held, Same};
ghost use Rattle.promises.specs.Slices.{needed, lengths, zeros, zeroed, filled};

// What is asked of a batch: its edit, where a node of tree 0 stands then, what becomes of each change, how much of the text is rewritten, or which elements of
// tree 0 survive, and where.
#[derive(Clone, Copy)]
pub enum Job {
    Edit,
    Find(usize),
    Account,
    Share,
    Kept,
}

// What a call that is not refused tells: how many bytes the result, the account or the pairs have; an element's number, if one is found; or a share's quotient and remainder:
// the two numbers of `share_rows::Thousandths`, which stands in a crate of rows, that these promises do not know.
#[derive(Clone, Copy)]
pub enum Told {
    Bytes(usize),
    Place(Option<usize>),
    Of(usize, usize),
}

// The work slices that a public call is lent, in the order of docs/WORK.md.
#[derive(Drop)]
pub struct Work<'a> {
    pub table: &'a mut [u32],
    pub source: &'a mut [u32],
    pub changes: &'a mut [u32],
    pub notes: &'a mut [u32],
    pub incoming: &'a mut [u32],
    pub changed: &'a mut [u32],
    pub marks: &'a mut [u32],
    pub rows: &'a mut [u32],
    pub prepared: &'a mut [u32],
}

// Whether a work slice is shorter than its length in docs/WORK.md. The writer and the checker (`write_batch`, `check_claim`) have one each for their own slices, by their own numbers: what could be
// shared is the test of a list of lengths, which is this `any`.
pub fn too_short(work: &Work) -> bool
    ensures { result ≡ too_short (lengths needed (held work.now)) }
{
    [
        (work.table.len(), 16384),
        (work.source.len(), 6147),
        (work.changes.len(), 3840),
        (work.notes.len(), 3072),
        (work.incoming.len(), 3072),
        (work.changed.len(), 1024),
        (work.marks.len(), 2048),
        (work.rows.len(), 12291),
        (work.prepared.len(), 12288),
    ]
    .iter()
    .any(|lent| lent.0 < lent.1)
}

// Every work slice becomes zeros. Beside the writer's and the checker's, as above: each fills the fields of its own struct, which one function could take only as a slice of lent slices.
#[tactic(auto, unfolding(crate::specs::Slices::zeroed, crate::specs::Slices::zeros))]
pub fn clear_all(work: &mut Work)
    ensures same { Same work.old work.new }
    ensures zeros { held work.new ≡ zeroed (held work.old) }
{
    work.table.fill(0);
    work.source.fill(0);
    work.changes.fill(0);
    work.notes.fill(0);
    work.incoming.fill(0);
    work.changed.fill(0);
    work.marks.fill(0);
    work.rows.fill(0);
    work.prepared.fill(0);
}

// Runs something on work slices of the lengths of docs/WORK.md, all of whose words are `word`.
pub fn with_work<R, F: FnOnce(&mut Work) -> R>(word: u32, run: F) -> R
    requires { (w : _) → held w.now ≡ filled word → F.pre run w }
    ensures { (w : _) × (v : _) × (held w.now ≡ filled word) × F.post run w result v }
{
    let mut table = [word; 16384];
    let mut source = [word; 6147];
    let mut changes = [word; 3840];
    let mut notes = [word; 3072];
    let mut incoming = [word; 3072];
    let mut changed = [word; 1024];
    let mut marks = [word; 2048];
    let mut rows = [word; 12291];
    let mut prepared = [word; 12288];
    run(&mut Work {
        table: &mut table,
        source: &mut source,
        changes: &mut changes,
        notes: &mut notes,
        incoming: &mut incoming,
        changed: &mut changed,
        marks: &mut marks,
        rows: &mut rows,
        prepared: &mut prepared,
    })
}
