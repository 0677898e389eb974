// The writer: the message that document 01 fixes for a day list and a ceiling.
//
//   message   the message of a list whose collections have their labels
#![tactic(auto)]

ghost use Rattle.std.specs.Prelude.{◌≡◌, ◌+◌, ◌≤◌, length, Ok};
ghost use Rattle.profile.specs.Limits.{most_bytes};
ghost use Rattle.daylist.specs.Stages.{judged_list};
ghost use Rattle.batched.specs.Ready.{message_by};
ghost use Rattle.write.specs.Write.{answered, fitted, output_after, answer_for, output_for};

use batched::Batches;
use profile::{ListRefusal, Profile};

pub mod message;

// The message of a list whose collections have their labels. An output that has room for the longest message there is
// needs no measuring. Where there is no room for the message nothing is written.
fn write_labelled(batches: &Batches<'_>, out: &mut [u8]) -> Result<usize, ListRefusal>
    requires { length (message_by batches.now.list.now batches.now.labels.now batches.now.count) ≤ most_bytes }
    ensures result_value { answered result ≡ fitted (message_by batches.now.list.now batches.now.labels.now batches.now.count) (length out.old) }
    ensures out_after { out.new ≡ output_after (answered result) (message_by batches.now.list.now batches.now.labels.now batches.now.count) out.old }
{
    if out.len() < Profile::BYTES {
        let length = message::write_message(&mut [], batches);
        if out.len() < length {
            return Err(ListRefusal::OutputTooShort(length));
        }
    }
    Ok(message::write_message(out, batches))
}

// The message of a list that is judged good, with a place for the starts of its lines and for the labels of its collections.
fn write_in(
    list: &[u8],
    ceiling: u64,
    table: &mut [usize],
    labels: &mut [u64],
    out: &mut [u8],
) -> Result<usize, ListRefusal>
    requires ceiling_value { judged_list list.now ceiling ≡ Ok (length labels.old) }
    requires table_len { length table.old ≡ length labels.old + 1 }
    ensures result_value { answered result ≡ answer_for list.now ceiling (length out.old) }
    ensures out_after { out.new ≡ output_for list.now ceiling out.old }
{
    let count = collections::label(list, ceiling, table, labels);
    if Profile::BATCHES < count {
        return Err(ListRefusal::TooManyBatches(count as usize));
    }
    let batches = Batches {
        list,
        table,
        labels,
        count,
    };
    write_labelled(&batches, out)
}

// The message of a list of so many collections that is judged good.
// `run_lists` has the like: both lend their own arrays, since there is no heap, and one function would take what follows as a closure, with the clauses of `write_in`.
fn write_good(
    list: &[u8],
    ceiling: u64,
    collections: usize,
    out: &mut [u8],
) -> Result<usize, ListRefusal>
    requires { judged_list list.now ceiling ≡ Ok collections }
    ensures result_value { answered result ≡ answer_for list.now ceiling (length out.old) }
    ensures out_after { out.new ≡ output_for list.now ceiling out.old }
{
    let mut table = [0usize; Profile::LINES];
    let mut labels = [0u64; Profile::COLLECTIONS];
    write_in(
        list,
        ceiling,
        &mut table[..collections + 1],
        &mut labels[..collections],
        out,
    )
}

// Writes the message for the list at the ceiling, and answers its length; or refuses, with the first refusal that is met, and writes no byte.
// Bytes of the output beyond the message stay.
pub fn write(list: &[u8], ceiling: u64, out: &mut [u8]) -> Result<usize, ListRefusal>
    ensures result_value { answered result ≡ answer_for list.now ceiling (length out.old) }
    ensures out_after { out.new ≡ output_for list.now ceiling out.old }
{
    let collections = daylist::judge_list(list, ceiling)?;
    write_good(list, ceiling, collections, out)
}
