// The check of the message on standard input with tables that are too short by one number, and with tables that are just long enough. Both tables are printed
// whole: a refusal leaves them as they were, and what stands after the last row stays.
#![tactic(auto)]

use profile::Profile;
use reads::read_full;
use std::io;

// The numbers of a table, in one line.
fn print_table(rt: &impl Print, table: &[u64]) -> io::Result<()> {
    for n in table {
        print!(rt; " {n}")?;
    }
    println!(rt; "")
}

// The check with so many numbers of each table lent.
// The rooms go beside the whole tables, since these are printed whole afterwards.
fn print_lent(
    rt: &impl Print,
    message: &[u8],
    slips: &mut [u64],
    slips_room: usize,
    rows: &mut [u64],
    rows_room: usize,
) -> io::Result<()> {
    let (Some(lent_slips), Some(lent_rows)) = (
        slips.get_mut(..slips_room),
        rows.get_mut(..rows_room),
    ) else {
        return Ok(());
    };
    report::print_checked(rt, message, lent_slips, lent_rows)?;
    print_table(rt, slips)?;
    print_table(rt, rows)
}

// The same with tables for two transactions in a batch, and two numbers more.
fn print_room(
    rt: &impl Print,
    message: &[u8],
    slips_room: usize,
    rows_room: usize,
) -> io::Result<()> {
    let mut slips = [7u64; 2 * Profile::SLIP + 2];
    let mut rows = [7u64; Profile::ROW + 2];
    print_lent(rt, message, &mut slips, slips_room, &mut rows, rows_room)
}

fn main(rt: HostRuntime) -> io::Result<()> {
    let mut message = [0u8; 16384];
    let n = read_full(&mut rt.stdin(), &mut message)?;
    let slips = 2 * Profile::SLIP;
    let rows = Profile::ROW;
    print_room(&rt, &message[..n], slips - 1, rows)?;
    print_room(&rt, &message[..n], slips, rows - 1)?;
    print_room(&rt, &message[..n], slips - 1, rows - 1)?;
    print_room(&rt, &message[..n], slips, rows)
}
