// The message of a list whose collections have their labels.
ghost use Rattle.std.specs.Prelude.{◌≡◌, ◌+◌, ◌*◌, ◌≤◌, ◌<◌, ◌^◌, eqb, length};
ghost use Rattle.profile.specs.Limits.{most_batches};
ghost use Rattle.bundle.specs.Labels.{pick, up_to};
ghost use Rattle.laws.specs.Lists.{total, count};
ghost use Rattle.laws.specs.Put.{put_at};
ghost use Rattle.put.specs.Wrote.{Wrote};
ghost use Rattle.collections.specs.Listed.{listed};
ghost use Rattle.written.specs.Pieces.{batches_bytes};
ghost use Rattle.batched.specs.Ready.{creditor_at, batch_room, batches_from, message_by};

use batched::Batches;
use pieces::head::{self, Sums};
use profile::{ControlSum, NumberOfTransactions};
use put::Output;

// How many collections the batches have, and their cents.
fn sums(batches: &Batches<'_>) -> Sums
    ensures transactions { result.transactions.0 ≡ total (λ k. count (eqb k) batches.now.labels.now) (up_to batches.now.count) }
    ensures cents { result.cents.0 ≡ total (λ k. total (λ x. x.cents) (pick k batches.now.labels.now (listed batches.now.list.now))) (up_to batches.now.count) }
{
    let mut transactions: u64 = 0;
    let mut cents: u64 = 0;
    for label in 0..batches.count {
        let own = batches.sums(label);
        transactions += own.transactions.0;
        cents += own.cents.0;
    }
    Sums {
        transactions: NumberOfTransactions(transactions),
        cents: ControlSum(cents),
    }
}

// The batches.
fn put_batches(out: &mut Output<'_>, batches: &Batches<'_>)
    requires { out.old.at + batch_room * most_batches < 2 ^ 32 }
    ensures wrote { Wrote out.old out.new (batches_bytes (creditor_at batches.now.list.now) 1 (batches_from 0 batches.now.count batches.now.labels.now (listed batches.now.list.now))) }
    ensures upper_bound { out.new.at ≤ out.old.at + batch_room * most_batches }
{
    for batch in 0..batches.count {
        batches.put_batch(out, batch);
    }
}

// The message.
fn put_message(out: &mut Output<'_>, batches: &Batches<'_>)
    requires { out.old.at + batch_room * most_batches + 2000 < 2 ^ 32 }
    ensures { Wrote out.old out.new (message_by batches.now.list.now batches.now.labels.now batches.now.count) }
{
    head::put_opening(out, &batches.creditor(), sums(batches));
    put_batches(out, batches);
    out.put(b"</CstmrDrctDbtInitn></Document>");
}

// The message from the first byte on; answers its length, whether or not there is room.
pub fn write_message(bytes: &mut [u8], batches: &Batches<'_>) -> usize
    ensures value { result ≡ length (message_by batches.now.list.now batches.now.labels.now batches.now.count) }
    ensures same_length { length bytes.new ≡ length bytes.old }
    ensures written { result ≤ length bytes.old → bytes.new ≡ put_at bytes.old 0 (message_by batches.now.list.now batches.now.labels.now batches.now.count) }
{
    let mut out = Output::new(bytes);
    put_message(&mut out, batches);
    out.at
}
