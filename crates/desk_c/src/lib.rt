// The desk for programs in other languages: the check and the writer with C's calling convention. include/desk.h states them in C.
// They stand here again, since no crate can stand on a static library, and the demands speak of `desk`.
#![tactic(auto)]

ghost use Rattle.std.specs.Prelude.{◌≡◌, length};
ghost use Rattle.write.specs.Write.{answer_for, output_for};
ghost use Rattle.desk.specs.Answers.{DeskChecks, written_numbers};

use desk::{DeskChecked, DeskWritten};

// The check of a message: twelve numbers for each transaction into `slips`, eight for each batch into `rows`, only where it is accepted.
#[unsafe(no_mangle)]
pub extern "C" fn desk_check(message: &[u8], slips: &mut [u64], rows: &mut [u64]) -> DeskChecked
    ensures { DeskChecks message.now slips.old rows.old result slips.new rows.new }
{
    desk::desk_check(message, slips, rows)
}

// The message for a day list at a ceiling, into the front of `out`, only where there is room for all of it.
#[unsafe(no_mangle)]
pub extern "C" fn desk_write(list: &[u8], ceiling: u64, out: &mut [u8]) -> DeskWritten
    ensures value { result ≡ written_numbers (answer_for list.now ceiling (length out.old)) }
    ensures out_after { out.new ≡ output_for list.now ceiling out.old }
{
    desk::desk_write(list, ceiling, out)
}
