// What was heard of a message so far, lent from event to event. Definitions of what it must hold: specs/.
//
//   row      what each part said, the first faults, and the limits
//   mixes    what was heard of addresses
#![tactic(auto, unfolding(crate::specs::Row::row_of))]

use profile::Flaw;

pub mod mixes;
pub mod row;

// ─── parts ───

// The parts that elements play in what a message says, by number. They are constants and no enum: a part comes as a number from the table of bytes that describes the
// form, and is an index here. That it is below END the table is asked (`fitting` of plan/specs/Held); a type of such numbers would be made anew at
// each use.
#[derive(Clone, Copy)]
pub struct Part(pub usize);

impl Part {
    pub const MESSAGE_COUNT: usize = 1;

    pub const MESSAGE_SUM: usize = 2;

    pub const BATCH: usize = 3;

    pub const BATCH_COUNT: usize = 4;

    pub const BATCH_SUM: usize = 5;

    pub const SCHEME: usize = 6;

    pub const SEQUENCE: usize = 7;

    pub const COLLECTION_DATE: usize = 8;

    pub const TRANSACTION: usize = 9;

    pub const END_TO_END: usize = 10;

    pub const AMOUNT: usize = 11;

    pub const MANDATE: usize = 12;

    pub const DEBTOR_NAME: usize = 15;

    pub const DEBTOR_ACCOUNT: usize = 16;

    pub const REMITTANCE: usize = 17;

    pub const ADDRESS: usize = 18;

    pub const ADDRESS_DETAIL: usize = 19;

    pub const TOWN: usize = 20;

    pub const COUNTRY: usize = 21;

    pub const ADDRESS_LINE: usize = 22;

    // After the last.
    pub const END: usize = 23;
}

// ─── what was heard ───

// What a part last said.
#[derive(Clone, Copy)]
pub struct Word {
    // 1 where it said something, else 0. A number, and no Option round the word: docs/PROMISES.md names the functions that take what was heard, and each promised its
    // answer for every number here.
    pub mark: u64,
    // Where its text starts, how many bytes that has, and the number that it states.
    pub start: usize,
    pub length: usize,
    pub worth: u64,
}

impl Word {
    pub const NOTHING: Word = Word {
        mark: 0,
        start: 0,
        length: 0,
        worth: 0,
    };
}

// How many elements may still come before one is too many, and the place of the last one.
#[derive(Clone, Copy)]
pub struct Limit {
    pub left: u64,
    pub place: usize,
}

// A fault: the number of its refusal, and its place. A number, and no enum: docs/PROMISES.md names `note_fault`, which promised its answer for every number from 1 on, and
// still does.
#[derive(Clone, Copy)]
pub struct Fault {
    pub number: u64,
    pub place: usize,
}

// What was heard of addresses. A fault in each, though only 59 is noted here: docs/PROMISES.md names the functions that keep it, whatever its number.
#[derive(Clone, Copy)]
pub struct AddressMixes {
    // The first address of the batches that ended whose mix is bad.
    pub found: Option<Fault>,

    // The place of the one that is open.
    pub address: Option<usize>,

    // The first of the open batch whose mix is bad where its collection date is early, before Address::UNSTRUCTURED_ENDS.
    pub early: Option<Fault>,

    // The same where it is late.
    pub late: Option<Fault>,
}

// What was heard so far.
#[derive(Clone, Copy)]
pub struct Heard {
    // What each part said.
    pub said: [Word; Part::END],

    // The first text that breaks its rule, and where it starts.
    pub flaw: Option<(Flaw, usize)>,

    pub batches: Limit,
    pub transactions: Limit,

    // The first batch whose declared count or sum differs.
    pub fault: Option<Fault>,

    pub addresses: AddressMixes,
}
