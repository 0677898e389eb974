// What the check of a message comes to, as printed lines: `OK` with batches, transactions and cents, and a line `B` for each batch; or `NO` with number and place.
#![tactic(auto)]

ghost use Rattle.std.specs.Prelude.{◌≡◌, length};

use profile::{Batch, Profile, Totals};
use std::io;

// What is declared, or `-` where it is absent.
// A mark and a number beside it, and no Option: both are numbers of the row, which C programs read too.
fn print_declared(rt: &impl Print, mark: u64, n: u64) -> io::Result<()> {
    if mark == 0 {
        print!(rt; " -")
    } else {
        print!(rt; " {n}")
    }
}

// The batch of this number from its row.
fn print_batch(rt: &impl Print, number: u64, row: &[u64]) -> io::Result<()>
    requires { length row.now ≡ 8 }
{
    print!(rt; "B {number} {} {}", row[Batch::COUNT], row[Batch::CENTS])?;
    print_declared(rt, row[Batch::HAS_COUNT], row[Batch::DECLARED_COUNT])?;
    print_declared(rt, row[Batch::HAS_SUM], row[Batch::DECLARED_SUM])?;
    println!(rt; "")
}

// The totals, and the batches of the table, one line each.
fn print_accepted(rt: &impl Print, totals: Totals, rows: &[u64]) -> io::Result<()> {
    println!(rt;
        "OK {} {} {}",
        totals.batches, totals.transactions.0, totals.cents.0
    )?;
    for (row, number) in rows.chunks_exact(Profile::ROW).zip(1..=totals.batches) {
        print_batch(rt, number, row)?;
    }
    Ok(())
}

// The check of a message with these tables.
// A refusal of a message has no field, so it is a line of its own here, and no `prints::Refused`.
pub fn print_checked(
    rt: &impl Print,
    message: &[u8],
    slips: &mut [u64],
    rows: &mut [u64],
) -> io::Result<()> {
    match checking::check(message, slips, rows) {
        Ok(totals) => print_accepted(rt, totals, rows),
        Err(refusal) => println!(rt; "NO {} {}", refusal.number(), refusal.place()),
    }
}

// The check of a message. The tables have room for every message that the profile allows.
pub fn print_check(rt: &impl Print, message: &[u8]) -> io::Result<()> {
    let mut slips = [0u64; Profile::SLIPS];
    let mut rows = [0u64; Profile::ROWS];
    print_checked(rt, message, &mut slips, &mut rows)
}
