// Judges the lists that the arguments name, each `CEILING:NAME`, the ceiling in digits and the name of a file. Prints the argument, and what the list comes to:
//   NO number place         the first refusal that is met; of a value NO number line field
//   OK collections batches  and, for each batch in order, a line `B`: its number from 1, and its collections, counted from 1 in the list
#![tactic(auto)]

ghost use Rattle.std.specs.Prelude.{◌≡◌, ◌+◌, length, Ok};
ghost use Rattle.daylist.specs.Stages.{judged_list};

use prints::Refused;
use profile::Profile;
use reads::{read_file, take_arguments};
use std::io;
use std::rt::Files;

// ─── a list ───

// The batches, one line each. Their labels count from 0, and so do the collections, which are printed from 1.
fn print_batches(rt: &impl Print, batches: u64, labels: &[u64]) -> io::Result<()> {
    for batch in 0..batches {
        print!(rt; "B {}", batch + 1)?;
        for (i, &label) in labels.iter().enumerate() {
            if label == batch {
                print!(rt; " {}", i + 1)?;
            }
        }
        println!(rt; "")?;
    }
    Ok(())
}

// A list that was judged good, with places for the starts of its lines and for its collections' labels.
fn print_labels(
    rt: &impl Print,
    list: &[u8],
    ceiling: u64,
    table: &mut [usize],
    labels: &mut [u64],
) -> io::Result<()>
    requires ceiling_value { judged_list list.now ceiling ≡ Ok (length labels.old) }
    requires table_len { length table.old ≡ length labels.old + 1 }
{
    let batches = collections::label(list, ceiling, table, labels);
    println!(rt; "OK {} {batches}", labels.len())?;
    print_batches(rt, batches, labels)
}

fn print_good(rt: &impl Print, list: &[u8], ceiling: u64, collections: usize) -> io::Result<()>
    requires { judged_list list.now ceiling ≡ Ok collections }
{
    let mut table = [0usize; Profile::LINES];
    let mut labels = [0u64; Profile::COLLECTIONS];
    let lines = collections + 1;
    print_labels(
        rt,
        list,
        ceiling,
        &mut table[..lines],
        &mut labels[..collections],
    )
}

fn print_list(rt: &impl Print, list: &[u8], ceiling: u64) -> io::Result<()> {
    match daylist::judge_list(list, ceiling) {
        Ok(collections) => print_good(rt, list, ceiling, collections),
        Err(refusal) => println!(rt; "{}", Refused(refusal)),
    }
}

// ─── the arguments ───

// The file at a path; false where there is none.
// `run_messages` has the like: another buffer, and another thing printed of a file.
fn print_file(rt: &(impl Files + Print + Eprint), path: &[u8], ceiling: u64) -> io::Result<bool> {
    let mut list = [0u8; 65536];
    let Some(n) = read_file(rt, path, &mut list)? else {
        return Ok(false);
    };
    print_list(rt, &list[..n], ceiling)?;
    Ok(true)
}

// The ceiling and the name of an argument; false where it is not `CEILING:NAME`, or no file has the name.
fn print_word(rt: &(impl Files + Print + Eprint), word: &[u8]) -> io::Result<bool> {
    let (ceiling, rest) = word.split_at(marks::digits(word));
    let [b':', name @ ..] = rest else {
        return Ok(false);
    };
    if 15 < ceiling.len() {
        return Ok(false);
    }
    rt.write_all(word)?;
    print!(rt; ": ")?;
    print_file(rt, name, marks::number(ceiling))
}

fn main(rt: HostRuntime) -> io::Result<()> {
    take_arguments(&rt, 199, |word| print_word(&rt, word))
}
