// What an event does: a text says something, an element begins; the slip of a transaction that ends and the row of a batch that ends are put into the lent tables.
// What is heard, the tally and the two tables go side by side. The tally goes by value and the tables are lent, as the customer asks of both, and the tables are those of
// C's callers. That the tally is small (`Within`) is asked at a place that grows with the message: no field has it, and so no type. `begin` takes the place and the white
// space of an element as numbers: it is named in docs/PROMISES.md, and one call makes them, which are taken apart at once.
#![tactic(auto)]

ghost use Rattle.std.specs.Prelude.{◌≡◌, List, [], ℕ, ◌+◌, ◌-◌, ◌≤◌, ◌<◌, length, take, drop};
ghost use Rattle.profile.specs.Limits.{most_bytes};
ghost use Rattle.tree.specs.Parts as part;
ghost use Rattle.text.specs.Rules.{judged};
ghost use Rattle.heard.specs.State.{batch_from, fault_in, put_if_room, slip_numbers, row_numbers, settled_tally, settled_slips, shut, step};
ghost use Rattle.heard.specs.Row.{row_of, state_of, with_fault};
ghost use Rattle.tree.specs.Parts.{parts_end};
ghost use Rattle.heard.specs.Bounds.{Within};
ghost use Rattle.events.specs.Events.{ended_rows, ended_row, told_row, held_at, Plain, Finished};

use heard::{Heard, Part};
use profile::{Batch, ControlSum, Profile, Slip, Tally, Totals};
use text::Rule;

// ─── a transaction that ends ───

// Fills the slip of the open transaction, which is of the batch k: the whole of the stretch that it is lent. Here and in `fill_row` the numbers are put by the names of
// their columns, by which `report` and other programs read them: so the names are held to the places.
fn fill_slip(slip: &mut [u64], heard: &Heard, k: u64)
    requires { length slip.old ≡ 12 }
    ensures { slip.new ≡ slip_numbers k (row_of heard.now).said }
{
    let end_to_end = heard.last_said(Part::END_TO_END);
    let mandate = heard.last_said(Part::MANDATE);
    let name = heard.last_said(Part::DEBTOR_NAME);
    let account = heard.last_said(Part::DEBTOR_ACCOUNT);
    let remittance = heard.last_said(Part::REMITTANCE);
    slip[Slip::BATCH] = k;
    slip[Slip::CENTS] = heard.last_said(Part::AMOUNT).worth;
    slip[Slip::TEXTS..].copy_from_slice(&[
        end_to_end.start as u64,
        end_to_end.length as u64,
        mandate.start as u64,
        mandate.length as u64,
        name.start as u64,
        name.length as u64,
        account.start as u64,
        account.length as u64,
        remittance.start as u64,
        remittance.length as u64,
    ]);
}

// The open transaction, where one is open in a batch, is added to the tally, and to the slips where there is room. The room is asked for here and in `end_batch`: one
// function for both would take the filler as a closure, and need the clauses of both.
#[tactic(auto, using(crate::proofs::Events::put_lent, crate::proofs::Events::put_none))]
fn settle(heard: &Heard, slips: &mut [u64], tally: Tally) -> Tally
    requires { Within most_bytes (state_of heard.now tally [] []) }
    ensures tally { result ≡ settled_tally (state_of heard.now tally slips.old []) }
    ensures slips { slips.new ≡ settled_slips (state_of heard.now tally slips.old []) }
{
    if tally.batches == 0 || !heard.is_said(Part::TRANSACTION) {
        return tally;
    }
    let before = tally.transactions.0 + tally.count.0;
    let at = Profile::SLIP * before as usize;
    if at + Profile::SLIP <= slips.len() {
        fill_slip(&mut slips[at..at + Profile::SLIP], heard, tally.batches);
    }
    let cents = ControlSum(heard.last_said(Part::AMOUNT).worth);
    tally.add_transaction(cents)
}

// ─── a batch that ends ───

// The batch that ends, from what was said.
fn batch_of(heard: &Heard, tally: Tally) -> Batch
    ensures { result ≡ batch_from (row_of heard.now).said tally }
{
    Batch {
        count: tally.count,
        sum: tally.sum,
        declared_count: heard.declared_count(Part::BATCH_COUNT),
        declared_sum: heard.declared_sum(Part::BATCH_SUM),
    }
}

// The first fault of a batch is noted: its count, then its sum.
fn note_batch(heard: &mut Heard, batch: Batch)
    ensures { row_of heard.new ≡ with_fault (row_of heard.old) (fault_in batch ((row_of heard.old).said part.batch_count).start ((row_of heard.old).said part.batch_sum).start) }
{
    if profile::count_differs(batch.declared_count, batch.count) {
        let start = heard.last_said(Part::BATCH_COUNT).start;
        heard.note_fault(6, start);
        return;
    }
    if profile::sum_differs(batch.declared_sum, batch.sum) {
        let start = heard.last_said(Part::BATCH_SUM).start;
        heard.note_fault(7, start);
    }
}

// Fills the row of the open batch: the whole of the stretch that it is lent.
fn fill_row(row: &mut [u64], heard: &Heard, tally: Tally)
    requires { (length row.old ≡ 8) × Within (most_bytes + 1) (state_of heard.now tally [] []) }
    ensures { row.new ≡ row_numbers (row_of heard.now).said tally }
{
    let scheme = heard.last_said(Part::SCHEME).worth;
    let sequence = heard.last_said(Part::SEQUENCE).worth;
    let count = heard.last_said(Part::BATCH_COUNT);
    let sum = heard.last_said(Part::BATCH_SUM);
    row[Batch::BEFORE] = tally.transactions.0;
    row[Batch::COUNT] = tally.count.0;
    row[Batch::CENTS] = tally.sum.0;
    row[Batch::HAS_COUNT] = count.mark;
    row[Batch::DECLARED_COUNT] = count.worth;
    row[Batch::HAS_SUM] = sum.mark;
    row[Batch::DECLARED_SUM] = sum.worth;
    row[Batch::TERMS] = 4 * scheme + sequence;
}

// The open batch, where one is open, ends: its row is put where there is room, its fault noted, and the first bad mix of its addresses.
#[tactic(auto, using(crate::proofs::Events::put_lent, crate::proofs::Events::put_none))]
fn end_batch(heard: &mut Heard, rows: &mut [u64], tally: Tally)
    requires { Within (most_bytes + 1) (state_of heard.old tally [] []) }
    ensures rows { rows.new ≡ ended_rows (row_of heard.old) tally rows.old }
    ensures heard { row_of heard.new ≡ ended_row (row_of heard.old) tally }
{
    if tally.batches == 0 {
        return;
    }
    let before = tally.batches - 1;
    let at = Profile::ROW * before as usize;
    if at + Profile::ROW <= rows.len() {
        fill_row(&mut rows[at..at + Profile::ROW], heard, tally);
    }
    let batch = batch_of(heard, tally);
    let date = heard.last_said(Part::COLLECTION_DATE).worth;
    note_batch(heard, batch);
    heard.end_mixes(date);
}

// The open transaction and the open batch are added to the tally, and the open address is judged.
fn shut(heard: &mut Heard, slips: &mut [u64], rows: &mut [u64], tally: Tally) -> Tally
    requires { Within most_bytes (state_of heard.old tally [] []) }
    ensures { state_of heard.new result slips.new rows.new ≡ shut (state_of heard.old tally slips.old rows.old) }
{
    let settled = settle(heard, slips, tally);
    heard.judge();
    end_batch(heard, rows, settled);
    settled.close_batch()
}

// ─── events ───

// A text says something.
pub fn text(heard: &mut Heard, message: &[u8], rule: Rule, part: usize, start: usize, end: usize)
    requires { (start ≤ end) × ((end ≤ length message.now) × Plain part) }
    ensures { row_of heard.new ≡ told_row (row_of heard.old) part start (end - start) (judged rule (take (end - start) (drop start message.now))) }
{
    match text::judge(rule, &message[start..end]) {
        Ok(n) => {
            heard.say(part, start, end - start, n);
        }
        Err(flaw) => {
            heard.say(part, start, end - start, 0);
            heard.note_flaw(flaw, start);
        }
    }
}

// A batch begins: its opening tag stands at `place`, and white space of this size after it at `start`.
fn begin_batch(
    heard: &mut Heard,
    slips: &mut [u64],
    rows: &mut [u64],
    place: usize,
    start: usize,
    size: usize,
    tally: Tally,
) -> Tally
    requires { Within most_bytes (state_of heard.old tally [] []) }
    ensures { state_of heard.new result slips.new rows.new
        ≡ step (state_of heard.old tally slips.old rows.old) (held_at part.batch place start size) }
{
    let closed = shut(heard, slips, rows, tally);
    heard.begin_mixes();
    heard.forget(Part::BATCH);
    heard.count_batch(place);
    heard.say(Part::BATCH, start, size, 0);
    closed.begin_batch()
}

// A transaction begins.
fn begin_transaction(
    heard: &mut Heard,
    slips: &mut [u64],
    place: usize,
    start: usize,
    size: usize,
    tally: Tally,
) -> Tally
    requires { Within most_bytes (state_of heard.old tally [] []) }
    ensures { (rows : List ℕ) → state_of heard.new result slips.new rows
        ≡ step (state_of heard.old tally slips.old rows) (held_at part.transaction place start size) }
{
    let settled = settle(heard, slips, tally);
    heard.judge();
    heard.forget(Part::TRANSACTION);
    heard.count_transaction(place);
    heard.say(Part::TRANSACTION, start, size, 0);
    settled
}

// An element that holds elements begins: its opening tag stands at `place`, and white space of this size after it at `start`.
pub fn begin(
    heard: &mut Heard,
    slips: &mut [u64],
    rows: &mut [u64],
    part: usize,
    place: usize,
    start: usize,
    size: usize,
    tally: Tally,
) -> Tally
    requires { (part < parts_end) × Within most_bytes (state_of heard.old tally [] []) }
    ensures { state_of heard.new result slips.new rows.new
        ≡ step (state_of heard.old tally slips.old rows.old) (held_at part place start size) }
{
    match part {
        Part::BATCH => begin_batch(heard, slips, rows, place, start, size, tally),
        Part::TRANSACTION => begin_transaction(heard, slips, place, start, size, tally),
        Part::ADDRESS => {
            heard.open_address(place);
            heard.say(Part::ADDRESS, start, size, 0);
            tally
        }
        _ => {
            heard.say(part, start, size, 0);
            tally
        }
    }
}

// After the last event: the totals, with the last transaction and the last batch.
pub fn finish(heard: &mut Heard, slips: &mut [u64], rows: &mut [u64], tally: Tally) -> Totals
    requires { Within most_bytes (state_of heard.old tally [] []) }
    ensures { Finished (state_of heard.old tally slips.old rows.old) (row_of heard.new) result slips.new rows.new }
{
    let closed = shut(heard, slips, rows, tally);
    closed.hand_back()
}
