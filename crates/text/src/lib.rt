// The text rules. Each judges a lent part of a message or a list, of any bytes and any length: good, with the number that it states (a count, cents, yyyymmdd of
// a date, a code's place among its words; else 0), or of which kind the first test is that it fails.
//
//   plain    identifiers, names, remittance, the texts of an address
//   number   counts, sums, amounts
//   date     dates and times
//   shape    IBAN, BICFI, creditor identifier, country
//   code     the fixed codes
#![tactic(auto)]

ghost use Rattle.std.specs.Prelude.{◌≡◌};
ghost use Rattle.text.specs.Rules.{judged};

pub mod code;
pub mod date;
pub mod number;
pub mod plain;
pub mod shape;

use profile::Flaw;

// The rules by name.
#[derive(Debug, Clone, Copy, PartialEq, Eq)]
pub enum Rule {
    // MsgId, PmtInfId, InstrId, EndToEndId, MndtId
    Identifier,
    // Nm
    Name,
    // Ustrd
    Remittance,
    // NbOfTxs
    Count,
    // CtrlSum
    Sum,
    // InstdAmt
    Amount,
    // ReqdColltnDt, DtOfSgntr
    Date,
    // CreDtTm
    Time,
    Iban,
    // BICFI
    Bic,
    // Id under CdtrSchmeId's Othr
    CreditorIdentifier,
    // PmtMtd
    Method,
    // BtchBookg
    Booking,
    // SvcLvl Cd, Prtry
    Sepa,
    // LclInstrm Cd
    Scheme,
    // SeqTp
    Sequence,
    // ChrgBr
    Charges,
    // a bank's Othr Id
    NotProvided,
    // StrtNm, AdrLine
    AddressLine,
    // BldgNb, PstCd
    AddressCode,
    // TwnNm
    Town,
    // Ctry
    Country,
}

// A text judged by a rule.
pub fn judge(rule: Rule, text: &[u8]) -> Result<u64, Flaw>
    ensures { result ≡ judged rule text.now }
{
    match rule {
        Rule::Identifier => plain::identifier(text),
        Rule::Name | Rule::AddressLine => plain::plain_text(text, 70),
        Rule::Remittance => plain::plain_text(text, 140),
        Rule::AddressCode => plain::plain_text(text, 16),
        Rule::Town => plain::plain_text(text, 35),
        Rule::Count => number::count(text),
        Rule::Sum => number::sum(text),
        Rule::Amount => number::amount(text),
        // Lent anew: a slice that is handed on as it came is copied at the function's entry, whatever the rule.
        Rule::Date => date::date(&text[..]),
        Rule::Time => date::time(text),
        Rule::Iban => shape::iban(text),
        Rule::Bic => shape::bic(text),
        Rule::CreditorIdentifier => shape::creditor_identifier(text),
        Rule::Country => shape::country(text),
        Rule::Method => code::one_of(&["DD"], text),
        Rule::Booking => code::one_of(&["true", "false"], text),
        Rule::Sepa => code::one_of(&["SEPA"], text),
        Rule::Scheme => code::one_of(&["CORE", "B2B"], text),
        Rule::Sequence => code::one_of(&["FRST", "RCUR", "OOFF", "FNAL"], text),
        Rule::Charges => code::one_of(&["SLEV"], text),
        Rule::NotProvided => code::one_of(&["NOTPROVIDED"], text),
    }
}
