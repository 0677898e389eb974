// What was heard of addresses: the open one, and the first whose mix is bad, in the open batch and in those that ended.
ghost use Rattle.std.specs.Prelude.{◌≡◌, ◌<◌};
ghost use Rattle.std.proofs.Math.Option.{some};
ghost use Rattle.message.specs.Verdict.{at, or_else, unless_at};
ghost use Rattle.heard.specs.State.{address_in, judged_mixes, ended_mixes, begun_mixes};
ghost use Rattle.heard.specs.Row.{row_of, noted_in, with_mixes, with_address};

use crate::{Fault, Heard, Part};
use message::Address;

// The first address whose mix is bad: an earlier one, else the one at this place.
// `good` and `place` stay apart: the one is what `Address::is_good` says, the other stands in the open address; an Option of both would be made here to be taken apart.
fn first_bad(earlier: Option<Fault>, good: bool, place: usize) -> Option<Fault>
    ensures { noted_in result ≡ or_else (noted_in earlier) (at 59 (unless_at good (some place))) }
{
    if good {
        return earlier;
    }
    earlier.or(Some(Fault { number: 59, place }))
}

impl Heard {
    // An address begins, whose opening tag stands at this place.
    pub fn open_address(&mut self, place: usize)
        ensures { row_of self.new ≡ with_address (row_of self.old) place }
    {
        self.addresses.address = Some(place);
    }

    // What stands in the open address.
    fn address_of(&self) -> Address
        ensures { result ≡ address_in (row_of self.now).said }
    {
        Address {
            detail: self.is_said(Part::ADDRESS_DETAIL),
            town: self.is_said(Part::TOWN),
            country: self.is_said(Part::COUNTRY),
            line: self.is_said(Part::ADDRESS_LINE),
        }
    }

    // The open address is judged, where there is one: its mix at an early collection date, and at a late one.
    pub fn judge(&mut self)
        ensures { row_of self.new ≡ with_mixes (row_of self.old) (judged_mixes (row_of self.old).said (row_of self.old).mixes) }
    {
        let Some(place) = self.addresses.address else {
            return;
        };
        let address = self.address_of();
        let early = address.is_good(true);
        let late = address.is_good(false);
        self.addresses.early = first_bad(self.addresses.early, early, place);
        self.addresses.late = first_bad(self.addresses.late, late, place);
        self.addresses.address = None;
    }

    // The open batch ends, with this collection date: its first bad mix is the message's, where none was before.
    pub fn end_mixes(&mut self, date: u64)
        ensures { row_of self.new ≡ with_mixes (row_of self.old) (ended_mixes date (row_of self.old).mixes) }
    {
        let bad = if date < Address::UNSTRUCTURED_ENDS {
            self.addresses.early
        } else {
            self.addresses.late
        };
        self.addresses.found = self.addresses.found.or(bad);
    }

    // A batch begins: none of its addresses was judged.
    pub fn begin_mixes(&mut self)
        ensures { row_of self.new ≡ with_mixes (row_of self.old) (begun_mixes (row_of self.old).mixes) }
    {
        self.addresses.early = None;
        self.addresses.late = None;
    }
}
