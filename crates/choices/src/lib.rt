// How a batch is to be edited: one record by value, which every call that edits takes. A further choice is a further field and changes no signature.
#![tactic(auto)]

ghost use Rattle.std.specs.Prelude.{◌≡◌};
ghost use Rattle.definition.specs.Choices.{chosen};
ghost use Rattle.refusals.specs.Numbers.{answered};
ghost use Rattle.choices.specs.Meant.{meant};

use refusals::Refusal;

// Two numbers and no enums: C and a program's arguments give any number, and `judge` is what refuses it.
// The edge rule: 0 goes by offsets, 1 by where elements stand in the tree (document 02, Note 6). Stronger rules first: 0 is off, 1 is on (Note 9).
#[derive(Clone, Copy)]
pub struct Choices {
    pub edge: usize,
    pub stronger: usize,
}

// Refused if the edge rule is neither 0 nor 1, then if the choice of stronger rules first is neither off nor on.
pub fn judge(c: Choices) -> Result<(), Refusal>
    ensures { answered result ≡ chosen (meant c) }
{
    if 1 < c.edge {
        return Err(Refusal::Edge);
    }
    if 1 < c.stronger {
        return Err(Refusal::Stronger);
    }
    Ok(())
}
