// Checks each file that an argument names, and prints its name and what that comes to.
#![tactic(auto)]

use reads::{read_file, take_arguments};
use std::io;
use std::rt::Files;

// The file at a path; false where there is none.
fn print_file(rt: &(impl Files + Print + Eprint), path: &[u8]) -> io::Result<bool> {
    let mut message = [0u8; 16384];
    let Some(n) = read_file(rt, path, &mut message)? else {
        return Ok(false);
    };
    rt.write_all(path)?;
    print!(rt; ": ")?;
    report::print_check(rt, &message[..n])?;
    Ok(true)
}

fn main(rt: HostRuntime) -> io::Result<()> {
    take_arguments(&rt, 99, |path| print_file(&rt, path))
}
