// What the parts said, the first faults, and the limits.
ghost use Rattle.std.specs.Prelude.{◌≡◌, List, ℕ, ◌+◌, ◌≤◌, ◌<◌};
ghost use Rattle.std.proofs.Math.Option.{some};
ghost use Rattle.profile.specs.Refusals.{fault, flaw_number};
ghost use Rattle.profile.specs.Totals.{fresh_tally};
ghost use Rattle.heard.specs.State.{marked, fewer, over, count_of, sum_of, fresh};
ghost use Rattle.heard.specs.Row.{row_of, state_of, place_in, with_said, without_from, with_bad, with_fault, with_batch_counted, with_transaction_counted};
ghost use Rattle.tree.specs.Parts.{parts_end};

use crate::{AddressMixes, Fault, Heard, Limit, Part, Word};
use profile::{ControlSum, DeclaredSum, Flaw, NumberOfTransactions, Profile};

impl Limit {
    // One element more at this place; the place of the first that is too many stays.
    fn count(&mut self, place: usize)
        ensures { self.new ≡ fewer self.old.left self.old.place place }
    {
        if self.left == 0 {
            return;
        }
        self.left -= 1;
        self.place = place;
    }

    // The place of the first that is too many, where there is one.
    pub fn over(self) -> Option<usize>
        ensures { place_in result ≡ over self.left self.place }
    {
        match self.left {
            0 => Some(self.place),
            _ => None,
        }
    }
}

impl Heard {
    // Nothing was heard.
    pub fn fresh() -> Self
        ensures { (slips rows : List ℕ) → state_of result fresh_tally slips rows ≡ fresh slips rows }
    {
        Heard {
            said: [Word::NOTHING; Part::END],
            flaw: None,
            batches: Limit {
                left: Profile::BATCHES + 1,
                place: 0,
            },
            transactions: Limit {
                left: Profile::TRANSACTIONS + 1,
                place: 0,
            },
            fault: None,
            addresses: AddressMixes {
                found: None,
                address: None,
                early: None,
                late: None,
            },
        }
    }

    // ─── what a part said ───

    // True where a part said something.
    pub fn is_said(&self, part: usize) -> bool
        requires { part < parts_end }
        ensures { result ≡ marked ((row_of self.now).said part) }
    {
        self.said[part].mark != 0
    }

    // What a part last said.
    pub fn last_said(&self, part: usize) -> Word
        requires { part < parts_end }
        ensures { result ≡ (row_of self.now).said part }
    {
        self.said[part]
    }

    // The count that a part declares.
    // No generic function with `declared_sum`, for the same reason as `profile::count_differs`.
    pub fn declared_count(&self, part: usize) -> Option<NumberOfTransactions>
        requires { part < parts_end }
        ensures { result ≡ count_of ((row_of self.now).said part) }
    {
        let word = self.said[part];
        match word.mark {
            0 => None,
            _ => Some(NumberOfTransactions(word.worth)),
        }
    }

    // The sum that a part declares.
    pub fn declared_sum(&self, part: usize) -> DeclaredSum
        requires { part < parts_end }
        ensures { result ≡ sum_of ((row_of self.now).said part) }
    {
        let word = self.said[part];
        match word.mark {
            0 => DeclaredSum::Absent,
            _ => DeclaredSum::Cents(ControlSum(word.worth)),
        }
    }

    // A part says something: where its text starts, how long it is, and the number that it states.
    pub fn say(&mut self, part: usize, start: usize, length: usize, worth: u64)
        requires { part < parts_end }
        ensures { row_of self.new ≡ with_said (row_of self.old) part (record { mark = 1; start = start; length = length; worth = worth }) }
    {
        self.said[part] = Word {
            mark: 1,
            start,
            length,
            worth,
        };
    }

    // What the parts from `from` on said is taken back.
    pub fn forget(&mut self, from: usize)
        requires { from ≤ parts_end }
        ensures { row_of self.new ≡ without_from (row_of self.old) from }
    {
        self.said[from..].fill(Word::NOTHING);
    }

    // ─── first faults ───

    // A text that starts here breaks its rule.
    pub fn note_flaw(&mut self, flaw: Flaw, start: usize)
        ensures { row_of self.new ≡ with_bad (row_of self.old) (some (fault (flaw_number flaw) start)) }
    {
        self.flaw = self.flaw.or(Some((flaw, start)));
    }

    // The declared count or sum of a batch differs: the number of the refusal, and where that text starts.
    pub fn note_fault(&mut self, number: u64, start: usize)
        ensures { row_of self.new ≡ with_fault (row_of self.old) (some (fault number start)) }
    {
        self.fault = self.fault.or(Some(Fault {
            number,
            place: start,
        }));
    }

    // ─── limits ───

    // One batch more, whose opening tag stands at this place. docs/PROMISES.md names this one and the next.
    pub fn count_batch(&mut self, place: usize)
        ensures { row_of self.new ≡ with_batch_counted (row_of self.old) place }
    {
        self.batches.count(place);
    }

    // One transaction more.
    pub fn count_transaction(&mut self, place: usize)
        ensures { row_of self.new ≡ with_transaction_counted (row_of self.old) place }
    {
        self.transactions.count(place);
    }
}
