// Writes the message for the day list on standard input, at the ceiling that the argument says in digits. Prints
//   the message, with nothing after it
//   NO number place   the first refusal that is met; of a value NO number line field
//   TOO LONG          the list or its message has more than 65,536 bytes
#![tactic(auto)]

use prints::Refused;
use profile::ListRefusal;
use reads::read_full;
use std::io;
use std::rt::Env;

// The most bytes of a list, and of a message.
// `checker` has the like: each says its own limit.
const MOST: usize = 65536;

// The most bytes of the argument.
const WORD: usize = 4096;

fn print_written(rt: &impl Print, list: &[u8], ceiling: u64) -> io::Result<()> {
    let mut out = [0u8; MOST];
    match write::write(list, ceiling, &mut out) {
        Ok(length) => rt.write_all(out.get(..length).unwrap_or_default()),
        Err(ListRefusal::OutputTooShort(_)) => println!(rt; "TOO LONG"),
        Err(refusal) => println!(rt; "{}", Refused(refusal)),
    }
}

// The ceiling that the argument says; 0, which is none, where it is not all digits, and where its number is too large for a `u64`, which is above every ceiling.
fn ceiling_of(word: &[u8]) -> u64 {
    if marks::digits(word) < word.len() {
        return 0;
    }
    match str::from_utf8(word) {
        Ok(digits) => digits.parse().unwrap_or(0),
        Err(_) => 0,
    }
}

// An argument that is missing, or too long, is one without a byte.
fn print_list(rt: &(impl Env + Print), list: &[u8]) -> io::Result<()> {
    let mut word = [0u8; WORD];
    let n = rt.arg(1, &mut word).unwrap_or(0);
    print_written(rt, list, ceiling_of(&word[..n]))
}

fn main(rt: HostRuntime) -> io::Result<()> {
    let mut list = [0u8; MOST + 1];
    let n = read_full(&mut rt.stdin(), &mut list)?;
    if MOST < n {
        return println!(rt; "TOO LONG");
    }
    print_list(&rt, &list[..n])
}
