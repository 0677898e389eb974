// The papers' number, place and field of each refusal.
ghost use Rattle.std.specs.Prelude.{◌≡◌};
ghost use Rattle.profile.specs.Flaws.{flaw_of};
ghost use Rattle.profile.specs.Refusals.{flaw_number, number_of, place_of, list_number_of, list_place_of, list_field_of};

use crate::{Flaw, ListRefusal, Profile, Refusal};

impl Flaw {
    // The number of its refusal.
    pub fn number(self) -> u64
        ensures { result ≡ flaw_number self }
    {
        self as u64
    }
}

// The flaw of a number; the check digits for any number that no flaw has. So it was promised of each number (docs/DECISIONS.md, 66), and it is no TryFrom. No code here
// reads a number back.
impl From<u64> for Flaw {
    ghost from_gives = { λ n f. f ≡ flaw_of n };

    fn from(n: u64) -> Self {
        match n {
            51 => Flaw::Length,
            52 => Flaw::Letter,
            53 => Flaw::Slash,
            54 => Flaw::Number,
            55 => Flaw::Date,
            56 => Flaw::Code,
            57 => Flaw::Shape,
            _ => Flaw::CheckDigits,
        }
    }
}

impl Refusal {
    // Its number.
    pub fn number(self) -> u64
        ensures { result ≡ number_of self }
    {
        match self {
            Refusal::TooLong => 1,
            Refusal::NotOfTheForm(_) => 2,
            Refusal::TooManyBatches(_) => 3,
            Refusal::TooManyTransactions(_) => 4,
            Refusal::Text(flaw, _) => flaw.number(),
            Refusal::AddressMix(_) => 59,
            Refusal::BatchCount(_) => 6,
            Refusal::BatchSum(_) => 7,
            Refusal::MessageCount(_) => 8,
            Refusal::MessageSum(_) => 9,
            Refusal::SlipsTooShort(_) => 10,
            Refusal::BatchesTooShort(_) => 11,
        }
    }

    // Its place.
    pub fn place(self) -> usize
        ensures { result ≡ place_of self }
    {
        match self {
            Refusal::TooLong => Profile::BYTES,
            Refusal::NotOfTheForm(p)
            | Refusal::TooManyBatches(p)
            | Refusal::TooManyTransactions(p)
            | Refusal::Text(_, p)
            | Refusal::AddressMix(p)
            | Refusal::BatchCount(p)
            | Refusal::BatchSum(p)
            | Refusal::MessageCount(p)
            | Refusal::MessageSum(p)
            | Refusal::SlipsTooShort(p)
            | Refusal::BatchesTooShort(p) => p,
        }
    }
}

impl ListRefusal {
    // The line of the first collection that is one too many: after the creditor line and the most collections.
    pub const FIRST_TOO_MANY: usize = Profile::COLLECTIONS + 2;

    // Its number.
    pub fn number(self) -> u64
        ensures { result ≡ list_number_of self }
    {
        match self {
            ListRefusal::TooLong => 21,
            ListRefusal::Ceiling => 22,
            ListRefusal::NotAFrame(_) => 23,
            ListRefusal::NoCollection(_) => 24,
            ListRefusal::TooManyCollections => 25,
            ListRefusal::Value(flaw, _, _) => flaw.number(),
            ListRefusal::TooManyBatches(_) => 27,
            ListRefusal::OutputTooShort(_) => 28,
        }
    }

    // Its place.
    pub fn place(self) -> usize
        ensures { result ≡ list_place_of self }
    {
        match self {
            ListRefusal::TooLong | ListRefusal::Ceiling => 0,
            ListRefusal::TooManyCollections => ListRefusal::FIRST_TOO_MANY,
            ListRefusal::NotAFrame(n)
            | ListRefusal::NoCollection(n)
            | ListRefusal::Value(_, n, _)
            | ListRefusal::TooManyBatches(n)
            | ListRefusal::OutputTooShort(n) => n,
        }
    }

    // The field of a value in its line, from 1; 0 where it is no value, as `struct desk_written` of include/desk.h has it, and so no Option.
    pub fn field(self) -> usize
        ensures { result ≡ list_field_of self }
    {
        match self {
            ListRefusal::Value(_, _, field) => field,
            _ => 0,
        }
    }
}
