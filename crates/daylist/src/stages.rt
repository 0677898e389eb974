// The stages that go over all lines of a list.
ghost use Rattle.std.specs.Prelude.{◌≡◌, ◌&&◌, ℕ, Result};
ghost use Rattle.profile.specs.declared.ListRefusal.{ListRefusal};
ghost use Rattle.frames.specs.Lines.{Line, lines};
ghost use Rattle.frames.specs.Hex.{hex, unhex};
ghost use Rattle.frames.specs.Frames.{frame_of, framed};
ghost use Rattle.daylist.specs.Stages.{frames_from, values_from};
ghost use Rattle.daylist.specs.Walk.{walked, Judges};

use crate::{lines, values};
use profile::ListRefusal;

// Goes over the lines, and hands each on with whether LF ends it and its number, from 1, up to the first that is refused. Good gives the number of lines.
fn each_line<F: Fn(&[u8], bool, usize) -> Result<(), ListRefusal>>(
    list: &[u8],
    judge: F,
) -> Result<usize, ListRefusal>
    requires { F.IsAlwaysCallable judge }
    ensures { (f : ℕ → Line → Result (Unit {0}) ListRefusal) → Judges (F.post judge) f → result ≡ walked f 0 (lines list.now) }
{
    let mut done = 0;
    let mut at = 0;
    // A line ends where `line_end` says, which looks at many bytes at once; `split` looks at one. docs/TIMES.md has what that saved,
    // with three other changes: the writer took 80 instructions a byte, and then 16.
    while at < list.len() {
        let end = lines::line_end(list, at);
        judge(&list[at..end], end < list.len(), done + 1)?;
        done += 1;
        at = end + 1;
    }
    Ok(done)
}

// Whether the bytes of line `number` are hexadecimal, and a frame of its kind.
fn holds_frame(line: &[u8], number: usize) -> bool
    ensures { result ≡ (hex line.now && framed (frame_of number) (unhex line.now)) }
{
    frames::hex::is_hex(line) && frames::is_framed(line, frames::frame_of(number))
}

// Stage 23: the first line that is not a frame of its kind, or lacks LF. Good gives the number of lines.
pub fn judge_frames(list: &[u8]) -> Result<usize, ListRefusal>
    ensures { result ≡ frames_from 0 (lines list.now) }
{
    each_line(list, |line, is_ended, number| {
        if is_ended && holds_frame(line, number) {
            return Ok(());
        }
        Err(ListRefusal::NotAFrame(number))
    })
}

// Stage 51 to 58: the first line of which a value breaks its rule. Good gives the number of lines.
pub fn judge_values(list: &[u8]) -> Result<usize, ListRefusal>
    ensures { result ≡ values_from 0 (lines list.now) }
{
    each_line(list, |line, _, number| {
        values::judge_line(line, number).map_err(|bad| ListRefusal::Value(
            bad.flaw, number, bad.field,
        ))
    })
}
