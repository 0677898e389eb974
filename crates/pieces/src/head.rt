// What stands before the first transaction of a batch, and before the first batch of a message.
ghost use Rattle.std.specs.Prelude.{◌≡◌, ◌+◌, ◌≤◌, ◌<◌, ◌^◌, length};
ghost use Rattle.frames.specs.Hex.{unhex};
ghost use Rattle.put.specs.Wrote.{Wrote};
ghost use Rattle.collections.specs.Listed.{collection_of, creditor_of};
ghost use Rattle.written.specs.Written.{scheme_word, sequence_word};
ghost use Rattle.written.specs.Pieces.{sums_bytes, id_bytes, totals_bytes, terms_bytes, creditor_bytes, ids_bytes, opening_bytes};

use crate::line::{CollectionLine, CreditorLine};
use profile::{ControlSum, NumberOfTransactions};
use put::Output;

// A number of transactions, and their sum.
#[derive(Clone, Copy)]
pub struct Sums {
    pub transactions: NumberOfTransactions,
    pub cents: ControlSum,
}

// ─── a batch ───

// A batch's id.
fn put_id(out: &mut Output<'_>, number: u64)
    requires { out.old.at + 22 < 2 ^ 32 }
    ensures { Wrote out.old out.new (id_bytes number) }
{
    out.put(b"<PmtInf><PmtInfId>");
    out.put_batch_id(number);
}

// A number of transactions, and their sum.
fn put_sums(out: &mut Output<'_>, sums: Sums)
    requires { out.old.at + 80 < 2 ^ 32 }
    ensures wrote { Wrote out.old out.new (sums_bytes sums.transactions.0 sums.cents.0) }
    ensures upper_bound { out.new.at ≤ out.old.at + 80 }
{
    out.put_count(sums.transactions);
    out.put(b"</NbOfTxs><CtrlSum>");
    out.put_euros(sums.cents);
}

// A batch up to its terms.
pub fn put_totals(out: &mut Output<'_>, number: u64, sums: Sums)
    requires { out.old.at + 300 < 2 ^ 32 }
    ensures wrote { Wrote out.old out.new (totals_bytes number sums.transactions.0 sums.cents.0) }
    ensures upper_bound { out.new.at ≤ out.old.at + 300 }
{
    put_id(out, number);
    out.put(b"</PmtInfId><PmtMtd>DD</PmtMtd><BtchBookg>true</BtchBookg><NbOfTxs>");
    put_sums(out, sums);
    out.put(b"</CtrlSum><PmtTpInf><SvcLvl><Cd>SEPA</Cd></SvcLvl><LclInstrm><Cd>");
}

// The word of a scheme, and nothing where there is no such scheme.
fn scheme_word(scheme: u8) -> &'static [u8]
    ensures value { result.now ≡ scheme_word scheme }
    ensures length_bound { length result.now ≤ 4 }
{
    match scheme {
        0 => b"CORE",
        1 => b"B2B",
        _ => b"",
    }
}

// The word of a sequence, and nothing where there is no such sequence.
fn sequence_word(sequence: u8) -> &'static [u8]
    ensures value { result.now ≡ sequence_word sequence }
    ensures length_bound { length result.now ≤ 4 }
{
    match sequence {
        0 => b"FRST",
        1 => b"RCUR",
        2 => b"OOFF",
        3 => b"FNAL",
        _ => b"",
    }
}

// The terms of a collection, from its line.
pub fn put_terms(out: &mut Output<'_>, line: &CollectionLine<'_>)
    requires { out.old.at + 400 < 2 ^ 32 }
    ensures wrote { Wrote out.old out.new (terms_bytes (collection_of (unhex line.now.digits.now)).terms) }
    ensures upper_bound { out.new.at ≤ out.old.at + 400 }
{
    out.put(scheme_word(frames::hex::byte_at(line.digits, 1)));
    out.put(b"</Cd></LclInstrm><SeqTp>");
    out.put(sequence_word(frames::hex::byte_at(line.digits, 2)));
    out.put(b"</SeqTp></PmtTpInf><ReqdColltnDt>");
    line.put_text(out, 0);
    out.put(b"</ReqdColltnDt><Cdtr><Nm>");
}

// The creditor, from its line.
pub fn put_creditor(out: &mut Output<'_>, line: &CreditorLine<'_>)
    requires { out.old.at + 1300 < 2 ^ 32 }
    ensures wrote { Wrote out.old out.new (creditor_bytes (creditor_of (unhex line.now.digits.now))) }
    ensures upper_bound { out.new.at ≤ out.old.at + 1300 }
{
    line.put_text(out, 3);
    out.put(b"</Nm></Cdtr><CdtrAcct><Id><IBAN>");
    line.put_text(out, 4);
    out.put(b"</IBAN></Id></CdtrAcct><CdtrAgt>");
    line.put_bank(out, 5);
    out.put(b"</CdtrAgt><ChrgBr>SLEV</ChrgBr><CdtrSchmeId><Id><PrvtId><Othr><Id>");
    line.put_text(out, 6);
    out.put(b"</Id><SchmeNm><Prtry>SEPA</Prtry></SchmeNm></Othr></PrvtId></Id></CdtrSchmeId>");
}

// ─── a message ───

// The declaration, and the message's id and time.
fn put_ids(out: &mut Output<'_>, line: &CreditorLine<'_>)
    requires { out.old.at + 800 < 2 ^ 32 }
    ensures wrote { Wrote out.old out.new (ids_bytes (creditor_of (unhex line.now.digits.now))) }
    ensures upper_bound { out.new.at ≤ out.old.at + 800 }
{
    out.put(b"<?xml version=\"1.0\" encoding=\"UTF-8\"?>");
    out.put(
        b"<Document xmlns=\"urn:iso:std:iso:20022:tech:xsd:pain.008.001.08\"><CstmrDrctDbtInitn><GrpHdr><MsgId>",
    );
    line.put_text(out, 0);
    out.put(b"</MsgId><CreDtTm>");
    line.put_text(out, 1);
}

// The message before its first batch, for collections of which these are the sums.
pub fn put_opening(out: &mut Output<'_>, line: &CreditorLine<'_>, sums: Sums)
    requires { out.old.at + 1300 < 2 ^ 32 }
    ensures wrote { Wrote out.old out.new (opening_bytes (creditor_of (unhex line.now.digits.now)) sums.transactions.0 sums.cents.0) }
    ensures upper_bound { out.new.at ≤ out.old.at + 1300 }
{
    put_ids(out, line);
    out.put(b"</CreDtTm><NbOfTxs>");
    put_sums(out, sums);
    out.put(b"</CtrlSum><InitgPty><Nm>");
    line.put_text(out, 2);
    out.put(b"</Nm></InitgPty></GrpHdr>");
}
