// The check of a message.
#![tactic(auto)]

ghost use Rattle.std.specs.Prelude.{T};
ghost use Rattle.marks.specs.Ranks.{ranked};
ghost use Rattle.tree.specs.Pain008.{document};
ghost use Rattle.plan.specs.Held.{holds_elem};
ghost use Rattle.answer.specs.Said.{said};
ghost use Rattle.promise.specs.Check.{Checks};
ghost use Rattle.checking.specs.Inner.{Verdicts, Fills};

use heard::Heard;
use profile::{Profile, Refusal, Totals};

// One walk over a message, by the table `t` of its description: its slips and rows into the tables `a` and `b`, where these have room for them, and the verdict on
// it with tables of `slips` and `rows` numbers. Why these go side by side stands in `events` and `answer`.
fn pass(
    message: &[u8],
    t: &[u8],
    a: &mut [u64],
    b: &mut [u64],
    slips: usize,
    rows: usize,
) -> Result<Totals, Refusal>
    requires { T (holds_elem t.now 0 document) × T (ranked t.now) }
    ensures verdict { Verdicts message.now (record { slips = slips; rows = rows }) result }
    ensures fills { Fills message.now a.old b.old a.new b.new }
{
    let mut heard = Heard::fresh();
    let tally = reader::read(message, t, &mut heard, a, b, Profile::fresh().tally)?;
    let totals = events::finish(&mut heard, a, b, tally);
    answer::answer(&heard, totals, slips, rows)
}

// The check: the first walk is lent no table and gives the verdict; where it accepts, the same walk goes over the message again, into the caller's tables.
// The message and the two tables are three arguments, as C's callers give them.
pub fn check(message: &[u8], slips: &mut [u64], rows: &mut [u64]) -> Result<Totals, Refusal>
    ensures { Checks message.now slips.old rows.old (said result) slips.new rows.new }
{
    let t = pain008::table();
    let k = slips.len();
    let l = rows.len();
    let totals = pass(message, &t, &mut [], &mut [], k, l)?;
    // It accepts as the first did.
    let _ = pass(message, &t, slips, rows, k, l);
    Ok(totals)
}
