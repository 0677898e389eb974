// A transaction, from the line of its collection.
ghost use Rattle.std.specs.Prelude.{◌≡◌, ◌+◌, ◌≤◌, ◌<◌, ◌^◌};
ghost use Rattle.frames.specs.Hex.{unhex};
ghost use Rattle.put.specs.Wrote.{Wrote};
ghost use Rattle.collections.specs.Listed.{collection_of};
ghost use Rattle.written.specs.Pieces.{remittance_bytes, payment_bytes, debtor_bytes, transaction_bytes};

use crate::line::CollectionLine;
use profile::ControlSum;
use put::Output;

// RmtInf, or nothing where the text is empty.
fn put_remittance(out: &mut Output<'_>, line: &CollectionLine<'_>)
    requires { out.old.at + 300 < 2 ^ 32 }
    ensures wrote { Wrote out.old out.new (remittance_bytes (collection_of (unhex line.now.digits.now)).remittance) }
    ensures upper_bound { out.new.at ≤ out.old.at + 300 }
{
    let remittance = line.text(7);
    if remittance.is_empty() {
        return;
    }
    out.put(b"<RmtInf><Ustrd>");
    out.put_hex(remittance);
    out.put(b"</Ustrd></RmtInf>");
}

// The cents of a collection, of whose line the front is enough.
pub fn cents_of(line: &[u8]) -> ControlSum
    ensures { result.0 ≡ (collection_of (unhex line.now)).cents }
{
    ControlSum(daylist::values::high_first(line, 3, 5))
}

// Up to the debtor's bank.
fn put_payment(out: &mut Output<'_>, line: &CollectionLine<'_>)
    requires { out.old.at + 1000 < 2 ^ 32 }
    ensures wrote { Wrote out.old out.new (payment_bytes (collection_of (unhex line.now.digits.now))) }
    ensures upper_bound { out.new.at ≤ out.old.at + 1000 }
{
    out.put(b"<DrctDbtTxInf><PmtId><EndToEndId>");
    line.put_text(out, 1);
    out.put(b"</EndToEndId></PmtId><InstdAmt Ccy=\"EUR\">");
    out.put_euros(cents_of(line.digits));
    out.put(b"</InstdAmt><DrctDbtTx><MndtRltdInf><MndtId>");
    line.put_text(out, 2);
    out.put(b"</MndtId><DtOfSgntr>");
    line.put_text(out, 3);
    out.put(b"</DtOfSgntr></MndtRltdInf></DrctDbtTx><DbtrAgt>");
}

// From the debtor's bank on.
fn put_debtor(out: &mut Output<'_>, line: &CollectionLine<'_>)
    requires { out.old.at + 1300 < 2 ^ 32 }
    ensures wrote { Wrote out.old out.new (debtor_bytes (collection_of (unhex line.now.digits.now))) }
    ensures upper_bound { out.new.at ≤ out.old.at + 1300 }
{
    line.put_bank(out, 4);
    out.put(b"</DbtrAgt><Dbtr><Nm>");
    line.put_text(out, 5);
    out.put(b"</Nm></Dbtr><DbtrAcct><Id><IBAN>");
    line.put_text(out, 6);
    out.put(b"</IBAN></Id></DbtrAcct>");
    put_remittance(out, line);
    out.put(b"</DrctDbtTxInf>");
}

// The transaction of a collection.
pub fn put_transaction(out: &mut Output<'_>, line: &CollectionLine<'_>)
    requires { out.old.at + 2300 < 2 ^ 32 }
    ensures wrote { Wrote out.old out.new (transaction_bytes (collection_of (unhex line.now.digits.now))) }
    ensures upper_bound { out.new.at ≤ out.old.at + 2300 }
{
    put_payment(out, line);
    put_debtor(out, line);
}
