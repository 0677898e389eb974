// The desk for programs in other languages: the check and the writer, which answer in numbers. The crate desk_c gives both to C, and include/desk.h states them.
#![tactic(auto)]

ghost use Rattle.std.specs.Prelude.{◌≡◌, length};
ghost use Rattle.answer.specs.Said.{said};
ghost use Rattle.write.specs.Write.{answered, answer_for, output_for};
ghost use Rattle.desk.specs.Answers.{checked_numbers, DeskChecks, written_numbers};

use profile::{ListRefusal, Refusal, Totals};

// ─── the check ───

// What the check answers: number 0 and the totals of an accepted message, or the number and place of a refusal. Numbers and no Result: this is `struct desk_checked` of
// include/desk.h.
#[repr(C)]
#[derive(Clone, Copy)]
pub struct DeskChecked {
    pub number: u64,
    pub place: u64,
    pub batches: u64,
    pub transactions: u64,
    pub cents: u64,
}

// The answer in numbers.
impl From<Result<Totals, Refusal>> for DeskChecked {
    ghost from_gives = { λ checked numbers. numbers ≡ checked_numbers (said checked) };

    fn from(checked: Result<Totals, Refusal>) -> DeskChecked {
        match checked {
            Ok(totals) => DeskChecked {
                number: 0,
                place: 0,
                batches: totals.batches,
                transactions: totals.transactions.0,
                cents: totals.cents.0,
            },
            Err(refusal) => DeskChecked {
                number: refusal.number(),
                place: refusal.place() as u64,
                batches: 0,
                transactions: 0,
                cents: 0,
            },
        }
    }
}

// The check of a message: twelve numbers for each transaction into `slips`, eight for each batch into `rows`, only where it is accepted.
pub fn desk_check(message: &[u8], slips: &mut [u64], rows: &mut [u64]) -> DeskChecked
    ensures { DeskChecks message.now slips.old rows.old result slips.new rows.new }
{
    DeskChecked::from(checking::check(message, slips, rows))
}

// ─── the writer ───

// What the writer answers: number 0 and the length of the message, or the number and place of a refusal, and the field of a value: `struct desk_written` of include/desk.h.
#[repr(C)]
#[derive(Clone, Copy)]
pub struct DeskWritten {
    pub number: u64,
    pub place: u64,
    pub field: u64,
}

// The answer in numbers.
impl From<Result<usize, ListRefusal>> for DeskWritten {
    ghost from_gives = { λ written numbers. numbers ≡ written_numbers (answered written) };

    fn from(written: Result<usize, ListRefusal>) -> DeskWritten {
        match written {
            Ok(length) => DeskWritten {
                number: 0,
                place: length as u64,
                field: 0,
            },
            Err(refusal) => DeskWritten {
                number: refusal.number(),
                place: refusal.place() as u64,
                field: refusal.field() as u64,
            },
        }
    }
}

// The message for a day list at a ceiling, into the front of `out`, only where there is room for all of it.
pub fn desk_write(list: &[u8], ceiling: u64, out: &mut [u8]) -> DeskWritten
    ensures value { result ≡ written_numbers (answer_for list.now ceiling (length out.old)) }
    ensures out_after { out.new ≡ output_for list.now ceiling out.old }
{
    DeskWritten::from(write::write(list, ceiling, out))
}
