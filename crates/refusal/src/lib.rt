// Why a call is turned back. Every layer answers with this one type, so that each case has its number in one place.
#![tactic(auto)]

ghost use Rattle.std.specs.Prelude.{◌≡◌};
ghost use Rattle.refusal.specs.Number.{number_of};

#[derive(Clone, Copy)]
pub enum Refusal {
    ReplyBufferTooShort = 1,
    OfferInUse = 2,
    HandshakeTooLate = 3,
    LedgerFull = 4,
    BrokenList = 5,
    MessageTooLong = 6,
    OutputTooShort = 7,
    Malformed = 8,
    NoType = 9,
    WrongType = 10,
    UnknownLine = 11,
    NotStarted = 12,
}

impl Refusal {
    pub fn number(self) -> u64
        ensures { result ≡ number_of self }
    {
        self as u64
    }
}
