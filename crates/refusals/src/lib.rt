// Why a call is refused: the refusals of documents 01 and 02.
#![tactic(auto)]

ghost use Rattle.std.specs.Prelude.{◌≡◌};
ghost use Rattle.refusals.specs.Refusal.{number_of};

#[derive(Clone, Copy, PartialEq, Eq, Debug)]
pub enum Refusal {
    ReaderAboveSeven,
    NinthGroup,
    PairOver32,
    EntriesFull,
    ListTooShort,
    PreconditionNotMet,
    MembersFull,
    InstancesFull,
    MalformedView,
    BadSeparation,
    NotEightBytes,
    BadLength,
    NotStored,
    TooWide,
    BadVersion,
}

impl Refusal {
    // Its number in those documents.
    pub fn number(self) -> u64
        ensures { result ≡ number_of self }
    {
        match self {
            Refusal::ReaderAboveSeven => 1,
            Refusal::NinthGroup => 2,
            Refusal::PairOver32 => 3,
            Refusal::EntriesFull => 4,
            Refusal::ListTooShort => 5,
            Refusal::PreconditionNotMet => 6,
            Refusal::MembersFull => 7,
            Refusal::InstancesFull => 8,
            Refusal::MalformedView => 9,
            Refusal::BadSeparation => 10,
            Refusal::NotEightBytes => 11,
            Refusal::BadLength | Refusal::NotStored | Refusal::TooWide => 15,
            Refusal::BadVersion => 16,
        }
    }
}
