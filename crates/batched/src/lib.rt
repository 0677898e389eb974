// The batches of the message: of each, the collections that have its label, each found by the table of line starts. Batches are labelled from 0 and numbered from 1.
#![tactic(auto)]

ghost use Rattle.std.specs.Prelude.{◌≡◌, true, not, ◌+◌, ◌*◌, ◌≤◌, ◌<◌, ◌^◌, eqb, length, get_or};
ghost use Rattle.laws.specs.Bytes.{span};
ghost use Rattle.laws.specs.Lists.{total, count, gather};
ghost use Rattle.frames.specs.Hex.{unhex};
ghost use Rattle.frames.specs.Lines.{line_from};
ghost use Rattle.frames.specs.Frames.{framed, collection_frame};
ghost use Rattle.profile.specs.Limits.{most_cents};
ghost use Rattle.bundle.specs.Labels.{pick};
ghost use Rattle.put.specs.Wrote.{Wrote};
ghost use Rattle.collections.specs.Listed.{listed, collection_of};
ghost use Rattle.written.specs.Written.{no_collection, terms_of};
ghost use Rattle.written.specs.Pieces.{transaction_bytes, batch_bytes};
ghost use Rattle.batched.specs.Ready.{collection_at, creditor_at, BatchesReady, batch_room};

use pieces::head::{self, Sums};
use pieces::line::{CollectionLine, CreditorLine};
use pieces::transaction;
use profile::{ControlSum, NumberOfTransactions};
use put::Output;

// A list with the place where each of its lines starts, the label of each collection, and the number of batches. It has its creditor, each collection is found by the
// table, and each batch has a collection.
// Starts and labels stay two rows: the one is filled in a walk over the list, the other by `bundle`, which knows no list.
#[derive(Clone, Copy)]
pub struct Batches<'a> {
    pub list: &'a [u8],
    pub table: &'a [usize],
    pub labels: &'a [u64],
    pub count: u64,
    pub ghost ready: { BatchesReady list.now table.now labels.now count },
}

impl<'a> Batches<'a> {
    // ─── a line ───

    // The creditor's line, the first.
    pub fn creditor(&self) -> CreditorLine<'a>
        ensures { result.digits.now ≡ line_from self.now.list.now 0 }
    {
        let end = daylist::lines::line_end(self.list, 0);
        CreditorLine {
            digits: &self.list[..end],
        }
    }

    // Where the line of a collection starts.
    fn start_of(&self, i: usize) -> usize
        requires { i < length self.now.labels.now }
        ensures in_bounds { result ≤ length self.now.list.now }
        ensures holds_frame { framed collection_frame (unhex (line_from self.now.list.now result)) ≡ true }
        ensures value { collection_at self.now.list.now result ≡ get_or (listed self.now.list.now) i no_collection }
    {
        self.table[i + 1]
    }

    // The line of a collection.
    fn collection(&self, i: usize) -> CollectionLine<'a>
        requires { i < length self.now.labels.now }
        ensures { collection_of (unhex result.digits.now) ≡ get_or (listed self.now.list.now) i no_collection }
    {
        let start = self.start_of(i);
        let end = daylist::lines::line_end(self.list, start);
        CollectionLine {
            digits: &self.list[start..end],
        }
    }

    // The cents of a collection. They stand in the first eight bytes of its line, in 16 digits: so the end of the line is not looked for.
    fn cents(&self, i: usize) -> ControlSum
        requires { i < length self.now.labels.now }
        ensures value { result.0 ≡ (get_or (listed self.now.list.now) i no_collection).cents }
        ensures upper_bound { result.0 ≤ most_cents }
    {
        let start = self.start_of(i);
        transaction::cents_of(&self.list[start..start + 16])
    }

    // ─── the collections of a batch ───

    // The first of them; where there is none, the number of all collections.
    fn first_of(&self, batch: u64) -> usize
        ensures { result ≡ span (λ l. not (eqb batch l)) self.now.labels.now }
    {
        self.labels
            .iter()
            .position(|&label| label == batch)
            .unwrap_or(self.labels.len())
    }

    // How many there are, and their cents.
    pub fn sums(&self, batch: u64) -> Sums
        ensures transactions { result.transactions.0 ≡ count (eqb batch) self.now.labels.now }
        ensures cents { result.cents.0 ≡ total (λ x. x.cents) (pick batch self.now.labels.now (listed self.now.list.now)) }
        ensures cents_bound { result.cents.0 ≤ most_cents * length self.now.labels.now }
    {
        let mut transactions: u64 = 0;
        let mut cents: u64 = 0;
        for (i, &label) in self.labels.iter().enumerate() {
            if label == batch {
                transactions += 1;
                cents += self.cents(i).0;
            }
        }
        Sums {
            transactions: NumberOfTransactions(transactions),
            cents: ControlSum(cents),
        }
    }

    // Their transactions, in list order.
    fn put_transactions(&self, out: &mut Output<'_>, batch: u64)
        requires { out.old.at + 2300 * length self.now.labels.now < 2 ^ 32 }
        ensures wrote { Wrote out.old out.new (gather transaction_bytes (pick batch self.now.labels.now (listed self.now.list.now))) }
        ensures upper_bound { out.new.at ≤ out.old.at + 2300 * length self.now.labels.now }
    {
        for (i, &label) in self.labels.iter().enumerate() {
            if label == batch {
                transaction::put_transaction(out, &self.collection(i));
            }
        }
    }

    // ─── a batch ───

    // The batch.
    pub fn put_batch(&self, out: &mut Output<'_>, batch: u64)
        requires batch_in_bounds { batch < self.now.count }
        requires batch_room_bound { out.old.at + batch_room < 2 ^ 32 }
        ensures wrote { Wrote out.old out.new (batch_bytes (creditor_at self.now.list.now) (batch + 1) (pick batch self.now.labels.now (listed self.now.list.now))) }
        ensures upper_bound { out.new.at ≤ out.old.at + batch_room }
    {
        let sums = self.sums(batch);
        head::put_totals(out, batch + 1, sums);
        head::put_terms(out, &self.collection(self.first_of(batch)));
        head::put_creditor(out, &self.creditor());
        self.put_transactions(out, batch);
        out.put(b"</PmtInf>");
    }
}
