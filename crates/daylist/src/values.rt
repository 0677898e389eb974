// The values of a line, field by field.
ghost use Rattle.std.specs.Prelude.{◌≡◌, ◌+◌, ◌≤◌, length, take, drop, Ok, cond};
ghost use Rattle.frames.specs.Hex.{unhex};
ghost use Rattle.frames.specs.Fields.{judged_field};
ghost use Rattle.frames.specs.Frames.{collection_frame, lead_of, texts};
ghost use Rattle.daylist.specs.Lead.{high_first};
ghost use Rattle.daylist.specs.Values.{bad, collection_lead, judged_texts, first_bad, judged_line};

use crate::BadField;
use frames::{Field, hex};
use profile::{Flaw, Profile};
use text::Rule;

// ─── the fields before the texts ───

// The number that the `count` bytes from `from` on are, high first.
// By place and no `from_be_bytes`: the bytes stand as two digits each, and there may be fewer than asked for.
pub fn high_first(line: &[u8], from: usize, count: usize) -> u64
    requires { (from ≤ 255) × (count ≤ 7) }
    ensures { result ≡ high_first (take count (drop from (unhex line.now))) }
{
    let end = (from + count).min(line.len() / 2);
    let mut v = 0;
    for at in from..end {
        v = v * 256 + u64::from(hex::byte_at(line, at));
    }
    v
}

// The field of this number has this flaw where the test fails.
fn must(holds: bool, flaw: Flaw, field: usize) -> Result<(), BadField>
    ensures { result ≡ cond holds (Ok tt) (bad flaw field) }
{
    if holds {
        Ok(())
    } else {
        Err(BadField { flaw, field })
    }
}

// Of a collection: scheme 0 or 1, sequence 0 to 3, cents 1 to 99,999,999,999.
fn judge_lead(line: &[u8]) -> Result<(), BadField>
    ensures { result ≡ first_bad 0 (collection_lead (lead_of collection_frame (unhex line.now))) }
{
    must(hex::byte_at(line, 1) <= 1, Flaw::Code, 1)?;
    must(hex::byte_at(line, 2) <= 3, Flaw::Code, 2)?;
    let cents = high_first(line, 3, 5);
    must((1..=Profile::CENTS).contains(&cents), Flaw::Number, 3)
}

// ─── the texts ───

// The text fields of a creditor line: message id, creation time, initiating name, creditor name, IBAN, BIC, creditor identifier.
const CREDITOR: [Field; 7] = [
    Field::Needed(Rule::Identifier),
    Field::Needed(Rule::Time),
    Field::Needed(Rule::Name),
    Field::Needed(Rule::Name),
    Field::Needed(Rule::Iban),
    Field::Optional(Rule::Bic),
    Field::Needed(Rule::CreditorIdentifier),
];

// Those of a collection: collection date, end-to-end id, mandate id, signature date, BIC, debtor name, IBAN, remittance.
const COLLECTION: [Field; 8] = [
    Field::Needed(Rule::Date),
    Field::Needed(Rule::Identifier),
    Field::Needed(Rule::Identifier),
    Field::Needed(Rule::Date),
    Field::Optional(Rule::Bic),
    Field::Needed(Rule::Name),
    Field::Needed(Rule::Iban),
    Field::Optional(Rule::Remittance),
];

// A text judged as a field.
fn judge_field(field: Field, text: &[u8]) -> Result<u64, Flaw>
    ensures { result ≡ judged_field field text.now }
{
    match field {
        Field::Optional(_) if text.is_empty() => Ok(0),
        Field::Needed(rule) | Field::Optional(rule) => text::judge(rule, text),
    }
}

// The `size` bytes from a place on, judged as a field. A length byte is at most 255.
pub fn judge_part(line: &[u8], place: usize, size: usize, field: Field) -> Result<u64, Flaw>
    requires { (size ≤ 255) × (place + size ≤ length (unhex line.now)) }
    ensures { result ≡ judged_field field (take size (drop place (unhex line.now))) }
{
    let mut buffer = [0u8; 255];
    let text = &mut buffer[..size];
    hex::bytes_from(line, place, text);
    judge_field(field, text)
}

// The texts from a place on, judged as these fields, of which `before` stand before the texts.
fn judge_texts(line: &[u8], fields: &[Field], from: usize, before: usize) -> Result<(), BadField>
    requires { before ≤ 3 }
    ensures { result ≡ first_bad before (judged_texts fields.now (texts (length fields.now) (drop from (unhex line.now)))) }
{
    let end = line.len() / 2;
    let mut at = from;
    for (i, &field) in fields.iter().enumerate() {
        if end <= at {
            return Ok(());
        }
        let length = usize::from(hex::byte_at(line, at));
        at += 1;
        let size = length.min(end - at);
        if let Err(flaw) = judge_part(line, at, size, field) {
            return Err(BadField {
                flaw,
                field: before + i + 1,
            });
        }
        at += size;
    }
    Ok(())
}

// ─── a line ───

// The first field of line `number` that breaks its rule. The texts stand after the kind byte, and in a collection after seven lead bytes too, its first three fields.
pub fn judge_line(line: &[u8], number: usize) -> Result<(), BadField>
    ensures { result ≡ judged_line number (unhex line.now) }
{
    // The creditor's line, by its number as in `frames::frame_of`.
    if number == 1 {
        return judge_texts(line, &CREDITOR, 1, 0);
    }
    judge_lead(line)?;
    judge_texts(line, &COLLECTION, 8, 3)
}
