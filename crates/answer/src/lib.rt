// What the check answers: the stages from 3 on, from what was heard and the totals after the last event. Definitions: specs/.
// The lengths of the two tables go as two numbers: they are the caller's tables, which the first walk is not lent.
#![tactic(auto, unfolding(heard::specs::Row::row_of))]

ghost use Rattle.std.specs.Prelude.{◌≡◌, ◌+◌, ◌*◌, ◌≤◌, leb};
ghost use Rattle.profile.specs.Limits.{most_bytes};
ghost use Rattle.tree.specs.Parts as part;
ghost use Rattle.message.specs.Verdict.{at, or_else, unless};
ghost use Rattle.heard.specs.State.{over};
ghost use Rattle.heard.specs.Row.{row_of};
ghost use Rattle.answer.specs.Answer.{mix_found, batch_found, count_found, sum_found, answer, stage_fault};
ghost use Rattle.answer.specs.Said.{said};

use heard::{Heard, Part};
use profile::{Profile, Refusal, Totals};

// ─── what was heard ───

// No batch and no transaction is one too many.
fn limits(heard: &Heard) -> Result<(), Refusal>
    ensures { let w = row_of heard.now in
        stage_fault result ≡ or_else (at 3 (over w.batches.left w.batches.place)) (at 4 (over w.transactions.left w.transactions.place)) }
{
    if let Some(place) = heard.batches.over() {
        return Err(Refusal::TooManyBatches(place));
    }
    if let Some(place) = heard.transactions.over() {
        return Err(Refusal::TooManyTransactions(place));
    }
    Ok(())
}

// Every text keeps its rule.
// `texts`, `mixes` and `batches` hand on what was noted, each as a refusal of its own: with that as a closure one function would need the clauses of all three.
fn texts(heard: &Heard) -> Result<(), Refusal>
    ensures { stage_fault result ≡ (row_of heard.now).bad }
{
    match heard.flaw {
        None => Ok(()),
        Some((flaw, start)) => Err(Refusal::Text(flaw, start)),
    }
}

// The mix of every address is good.
fn mixes(heard: &Heard) -> Result<(), Refusal>
    ensures { stage_fault result ≡ mix_found (row_of heard.now).mixes.found }
{
    match heard.addresses.found {
        None => Ok(()),
        Some(fault) => Err(Refusal::AddressMix(fault.place)),
    }
}

// Every batch has what it declares.
// The number of a fault is no enum: `heard::Fault` says why.
fn batches(heard: &Heard) -> Result<(), Refusal>
    ensures { stage_fault result ≡ batch_found (row_of heard.now).fault }
{
    match heard.fault {
        None => Ok(()),
        Some(fault) => match fault.number {
            6 => Err(Refusal::BatchCount(fault.place)),
            _ => Err(Refusal::BatchSum(fault.place)),
        },
    }
}

// ─── the totals ───

// They are those that the header declares.
fn header(heard: &Heard, totals: Totals) -> Result<(), Refusal>
    ensures { let w = row_of heard.now in
        stage_fault result ≡ or_else (count_found (w.said part.message_count) totals.transactions) (sum_found (w.said part.message_sum) totals.cents) }
{
    if profile::count_differs(
        heard.declared_count(Part::MESSAGE_COUNT),
        totals.transactions,
    ) {
        let start = heard.last_said(Part::MESSAGE_COUNT).start;
        return Err(Refusal::MessageCount(start));
    }
    if profile::sum_differs(heard.declared_sum(Part::MESSAGE_SUM), totals.cents) {
        let start = heard.last_said(Part::MESSAGE_SUM).start;
        return Err(Refusal::MessageSum(start));
    }
    Ok(())
}

// The tables, of `slips` and `rows` numbers, have room for them.
fn room(totals: Totals, slips: usize, rows: usize) -> Result<(), Refusal>
    requires { (totals.transactions.0 ≤ most_bytes + 1) × (totals.batches ≤ most_bytes + 1) }
    ensures { let s = 12 * totals.transactions.0 in let r = 8 * totals.batches in
        stage_fault result ≡ or_else (at 10 (unless (leb s slips) s)) (at 11 (unless (leb r rows) r)) }
{
    let needed_slips = Profile::SLIP * totals.transactions.0 as usize;
    if slips < needed_slips {
        return Err(Refusal::SlipsTooShort(needed_slips));
    }
    let needed_rows = Profile::ROW * totals.batches as usize;
    if rows < needed_rows {
        return Err(Refusal::BatchesTooShort(needed_rows));
    }
    Ok(())
}

// ─── the answer ───

// What is answered after the last event, where the tables hold `slips` and `rows` numbers.
pub fn answer(heard: &Heard, totals: Totals, slips: usize, rows: usize) -> Result<Totals, Refusal>
    requires { (totals.transactions.0 ≤ most_bytes + 1) × (totals.batches ≤ most_bytes + 1) }
    ensures { said result ≡ answer (record { slips = slips; rows = rows }) (row_of heard.now) totals }
{
    limits(heard)?; // 3 and 4
    texts(heard)?; // 51 to 58
    mixes(heard)?; // 59
    batches(heard)?; // 6 and 7
    header(heard, totals)?; // 8 and 9
    room(totals, slips, rows)?; // 10 and 11
    Ok(totals)
}
