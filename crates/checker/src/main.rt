// Checks the message on standard input, and prints what that comes to.
#![tactic(auto)]

use reads::read_full;
use std::io;

// The most bytes of a message that is read. `writer` has the like: each says its own limit.
const MOST: usize = 65536;

fn main(rt: HostRuntime) -> io::Result<()> {
    let mut message = [0u8; MOST + 1];
    let n = read_full(&mut rt.stdin(), &mut message)?;
    if MOST < n {
        return println!(rt; "TOO LONG");
    }
    report::print_check(&rt, &message[..n])
}
