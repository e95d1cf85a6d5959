// The refusals of a call, by the names that the Rust binding has for them.

#![tactic(auto)]

ghost use Rattle.std.specs.Prelude.{◌≡◌};
ghost use Rattle.refusal.specs.Refusal.{refusal_number};

// Each has its number in a notice; specs/Refusal.antt says which, and in whose words.
#[derive(Clone, Copy, Debug, PartialEq, Eq)]
pub enum Refusal {
    LengthMismatch = 1,
    BufferTooShort,
    UnknownVersion,
    FieldsMismatch,
    LimitExceeded,
    ValueNotListed,
    NumberOutOfRange,
    DuplicateId,
    UnknownId,
    TapUnreachable,
    ForbiddenContact,
    RouteThroughNode,
    NoRoomToSplit,
    GeometryVisitsSpent,
    OffGrid,
    PageOffGrid,
    PlanMismatch,
    PlannedNumber,
    TooManyCrossings,
}

// A refusal's number.
impl From<Refusal> for u8 {
    ghost from_gives = { λ r n. n ≡ refusal_number r };

    fn from(r: Refusal) -> u8 {
        r as u8
    }
}
