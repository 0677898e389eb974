// What a message says: its events with what their texts state, its batches, transactions and addresses, the stages of the check, and the rows of the tables. The definitions
// are in specs/.
#![tactic(auto)]

ghost use Rattle.std.specs.Prelude.{◌≡◌};
ghost use Rattle.message.specs.Addresses.{good_mix};

use profile::Flaw;

// An event with what its text is judged. White space between elements is judged good.
#[derive(Clone, Copy)]
pub struct Told {
    // A number, as in `tree::Event`.
    pub part: usize,
    pub place: usize,
    pub start: usize,
    pub length: usize,
    pub judged: Result<u64, Flaw>,
}

// Which of the parts stand in a postal address: a street, a number or a post code; a town; a country; a line.
#[derive(Clone, Copy)]
pub struct Address {
    pub detail: bool,
    pub town: bool,
    pub country: bool,
    pub line: bool,
}

impl Address {
    // The first collection date, as yyyymmdd, at which an unstructured address is bad.
    pub const UNSTRUCTURED_ENDS: u64 = 20261115;

    // The mix of its parts is good, at a collection date before that one where `early`.
    pub fn is_good(self, early: bool) -> bool
        ensures { result ≡ good_mix early self }
    {
        if self.town {
            return self.country;
        }
        early && !self.detail && (self.line || self.country)
    }
}
