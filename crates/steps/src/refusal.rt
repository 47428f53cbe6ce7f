// Why a step or an opening is refused.
ghost use Rattle.std.specs.Prelude.{◌≡◌};
ghost use Rattle.steps.specs.Refused.{number_of};

// "Steps refused", by number: 1 to 15.
#[derive(Clone, Copy)]
pub enum Refusal {
    NoHead,
    BadSizes,
    TooShort,
    UnknownKind,
    UnknownClient,
    UnknownOperation,
    UnknownServer,
    UnknownNode,
    Unfit,
    Damaged,
    BadCount,
    ShortOutput,
    UnfitServer,
    SlotTaken,
    LastMetadata,
}

// Its number.
impl From<Refusal> for u64 {
    ghost from_gives = { λ refusal n. n ≡ number_of refusal };

    fn from(refusal: Refusal) -> u64 {
        match refusal {
            Refusal::NoHead => 1,
            Refusal::BadSizes => 2,
            Refusal::TooShort => 3,
            Refusal::UnknownKind => 4,
            Refusal::UnknownClient => 5,
            Refusal::UnknownOperation => 6,
            Refusal::UnknownServer => 7,
            Refusal::UnknownNode => 8,
            Refusal::Unfit => 9,
            Refusal::Damaged => 10,
            Refusal::BadCount => 11,
            Refusal::ShortOutput => 12,
            Refusal::UnfitServer => 13,
            Refusal::SlotTaken => 14,
            Refusal::LastMetadata => 15,
        }
    }
}
