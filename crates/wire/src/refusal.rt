// How readers and writers of messages answer where they refuse.
ghost use Rattle.std.specs.Prelude.{◌≡◌};
ghost use Rattle.wire.specs.declared.refusal.Refusal.TheVariants.{Malformed};

use crate::read::Fault;

// Why one refuses; its output is then untouched. 01's numbers are in specs/Refusals.antt.
#[derive(Clone, Copy, PartialEq, Eq)]
pub enum Refusal {
    OutputTooShort,
    Malformed(usize),
    UnfitType,
    AgentFailure,
    OtherReply,
    NoSuchItem,
    PayloadTooLong,
    TooManyConstraints,
}

impl From<Fault> for Refusal {
    ghost from_gives = { λ f r. r ≡ Malformed f.at };

    fn from(f: Fault) -> Refusal {
        Refusal::Malformed(f.at)
    }
}
