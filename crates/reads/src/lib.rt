// Input into a buffer that the caller lends, and the arguments of a program.
#![tactic(auto)]

ghost use Rattle.std.specs.Prelude.{IfOk, IfSome, length, take, ◌≤◌, ◌<◌};
ghost use Rattle.std.specs.Io.{ReadsAtMost};
ghost use Rattle.std.specs.Io.KnownBytes.{Consumes, IsAtEnd};

use std::io::Read;
use std::rt::{Env, Files};
use std::{fs, io};

// Reads until the buffer is full or the input ends, and returns how many bytes it put at the start of the buffer.
// A `while`: each turn goes on by as much as was read.
pub fn read_full<R: Read>(input: &mut R, buf: &mut [u8]) -> io::Result<usize>
    ensures bound { ReadsAtMost result buf.new }
    ensures bytes { IfOk result (λ n. Consumes (R.remaining input.old) (R.remaining input.new) (take n buf.new)) }
    ensures end { IfOk result (λ n. n < length buf.new → IsAtEnd (R.remaining input.new)) }
{
    let mut done = 0;
    while done < buf.len() {
        let n = input.read(&mut buf[done..])?;
        if n == 0 {
            break;
        }
        done += n;
    }
    Ok(done)
}

// The same from the start of the file at a path; `None` where it cannot be opened, which a line on standard error says. The paths of std are texts: one
// that is not UTF-8 cannot be opened.
pub fn read_file(
    rt: &(impl Files + Eprint),
    path: &[u8],
    buf: &mut [u8],
) -> io::Result<Option<usize>>
    ensures { IfOk result (λ read. IfSome read (λ n. n ≤ length buf.new)) }
{
    let Ok(path) = str::from_utf8(path) else {
        eprintln!(rt; "a path that is not UTF-8 cannot be opened")?;
        return Ok(None);
    };
    match fs::open(rt, path) {
        Ok(mut file) => Ok(Some(read_full(&mut file, buf)?)),
        Err(e) => {
            eprintln!(rt; "{path}: {e}")?;
            Ok(None)
        }
    }
}

// Gives the arguments to `take` in order, `most` of them at most, until it answers false. They are bytes, and need be no texts, which std's `args` asks; one of more
// than 4,096 bytes ends them.
pub fn take_arguments<F: FnMut(&[u8]) -> io::Result<bool>>(
    rt: &impl Env,
    most: usize,
    mut take: F,
) -> io::Result<()>
    requires { F.IsAlwaysCallable take }
{
    for i in 0..most {
        let mut argument = [0u8; 4096];
        let Ok(n) = rt.arg(i + 1, &mut argument) else {
            return Ok(());
        };
        if !take(&argument[..n])? {
            return Ok(());
        }
    }
    Ok(())
}
