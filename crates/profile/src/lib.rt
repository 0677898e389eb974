// The profile's limits by name, the standard's two quantities, what a batch declares, the running tally, and the refusals.
//
//   refusals   the papers' number, place and field of each refusal
#![tactic(auto)]

ghost use Rattle.std.specs.Prelude.{◌≡◌, ◌+◌, ◌^◌, ◌<◌};
ghost use Rattle.profile.specs.Limits.{limits};
ghost use Rattle.profile.specs.Totals.{count_differs, sum_differs, fresh_tally, with_transaction, closed, begun, totals};

pub mod refusals;

// ─── the quantities ───

// A number of transactions. It never stands where cents are meant.
#[derive(Clone, Copy, Debug, PartialEq, Eq)]
pub struct NumberOfTransactions(pub u64);

// A sum of cents.
#[derive(Clone, Copy, Debug, PartialEq, Eq)]
pub struct ControlSum(pub u64);

// What a batch or the header declares of its sum: nothing, or a number of cents. A declared 0 is not the same as none. An enum of its own, and no Option as of a count: the
// customer asks for this form by name.
#[derive(Clone, Copy, Debug, PartialEq, Eq)]
pub enum DeclaredSum {
    Absent,
    Cents(ControlSum),
}

// True where a count is declared and is not `count`.
// No generic function with `sum_differs`: what is declared of a sum is an enum of its own.
pub fn count_differs(declared: Option<NumberOfTransactions>, count: NumberOfTransactions) -> bool
    ensures { result ≡ count_differs declared count }
{
    declared.is_some_and(|d| d != count)
}

// True where a sum is declared and is not `sum`.
pub fn sum_differs(declared: DeclaredSum, sum: ControlSum) -> bool
    ensures { result ≡ sum_differs declared sum }
{
    match declared {
        DeclaredSum::Absent => false,
        DeclaredSum::Cents(d) => d != sum,
    }
}

// ─── the running tally ───

// A batch: the exact count and cents of its transactions, and what it declares.
#[derive(Clone, Copy)]
pub struct Batch {
    pub count: NumberOfTransactions,
    pub sum: ControlSum,
    pub declared_count: Option<NumberOfTransactions>,
    pub declared_sum: DeclaredSum,
}

// Where its numbers stand in its row of the batch table: places and no fields, since C programs read the row by them (include/desk.h).
impl Batch {
    // The number of transactions before it.
    pub const BEFORE: usize = 0;

    pub const COUNT: usize = 1;

    pub const CENTS: usize = 2;

    // 1 or 0 for a declared count, and that count or 0.
    pub const HAS_COUNT: usize = 3;

    pub const DECLARED_COUNT: usize = 4;

    // The same of its sum.
    pub const HAS_SUM: usize = 5;

    pub const DECLARED_SUM: usize = 6;

    // 4 × scheme + sequence.
    pub const TERMS: usize = 7;
}

// Where the numbers of a transaction stand in its slip.
#[derive(Clone, Copy)]
pub struct Slip(pub usize);

impl Slip {
    // Its batch, from 1.
    pub const BATCH: usize = 0;

    pub const CENTS: usize = 1;

    // From here on start and length of each text.
    pub const TEXTS: usize = 2;
}

// What an accepted message answers: its batches, transactions and cents.
#[derive(Clone, Copy, Debug, PartialEq, Eq)]
pub struct Totals {
    pub batches: u64,
    pub transactions: NumberOfTransactions,
    pub cents: ControlSum,
}

// The running tally: the batches that were begun, the transactions and cents of those before the open one, and its own count and cents.
#[derive(Clone, Copy)]
pub struct Tally {
    pub batches: u64,
    pub transactions: NumberOfTransactions,
    pub cents: ControlSum,
    pub count: NumberOfTransactions,
    pub sum: ControlSum,
}

impl Tally {
    // Nothing was read.
    pub fn fresh() -> Self
        ensures { result ≡ fresh_tally }
    {
        Tally {
            batches: 0,
            transactions: NumberOfTransactions(0),
            cents: ControlSum(0),
            count: NumberOfTransactions(0),
            sum: ControlSum(0),
        }
    }

    // One transaction more in the open batch.
    pub fn add_transaction(self, cents: ControlSum) -> Self
        requires { (self.count.0 + 1 < 2 ^ 64) × (self.sum.0 + cents.0 < 2 ^ 64) }
        ensures { result ≡ with_transaction self cents }
    {
        Tally {
            count: NumberOfTransactions(self.count.0 + 1),
            sum: ControlSum(self.sum.0 + cents.0),
            ..self
        }
    }

    // The open batch joins those before it.
    pub fn close_batch(self) -> Self
        requires { (self.transactions.0 + self.count.0 < 2 ^ 64) × (self.cents.0 + self.sum.0 < 2 ^ 64) }
        ensures { result ≡ closed self }
    {
        Tally {
            batches: self.batches,
            transactions: NumberOfTransactions(self.transactions.0 + self.count.0),
            cents: ControlSum(self.cents.0 + self.sum.0),
            ..Tally::fresh()
        }
    }

    // A batch more is begun.
    pub fn begin_batch(self) -> Self
        requires { self.batches + 1 < 2 ^ 64 }
        ensures { result ≡ begun self }
    {
        Tally {
            batches: self.batches + 1,
            ..self
        }
    }

    // The totals of the closed batches, handed back.
    pub fn hand_back(self) -> Totals
        ensures { result ≡ totals self }
    {
        Totals {
            batches: self.batches,
            transactions: self.transactions,
            cents: self.cents,
        }
    }
}

// ─── the limits ───

// The limits as one value, for whoever wants them together.
#[derive(Clone, Copy)]
pub struct Limits {
    pub bytes: usize,
    pub batches: u64,
    pub transactions: u64,
    pub cents: u64,
    pub collections: usize,
    pub ceiling: u64,
}

// The profile of a message: its limits by name, and the tally that a reading starts with.
#[derive(Clone, Copy)]
pub struct Profile {
    pub tally: Tally,
}

impl Profile {
    // The longest message, in bytes.
    pub const BYTES: usize = 1048576;

    // The most batches of a message.
    pub const BATCHES: u64 = 64;

    // The most transactions of a message.
    pub const TRANSACTIONS: u64 = 2000;

    // The most cents of one amount: 999999999.99.
    pub const CENTS: u64 = 99999999999;

    // The most collections of a day list.
    pub const COLLECTIONS: usize = 1000;

    // The most lines of a day list: the creditor's, and one for each collection.
    pub const LINES: usize = Profile::COLLECTIONS + 1;

    // The highest ceiling: the most collections of a batch that a caller may ask for.
    pub const CEILING: u64 = 500;

    // The numbers of a slip.
    pub const SLIP: usize = 12;

    // The numbers of a batch's row.
    pub const ROW: usize = 8;

    // The numbers of a slip table that holds every message.
    pub const SLIPS: usize = Profile::SLIP * Profile::TRANSACTIONS as usize;

    // The numbers of a batch table that holds every message.
    pub const ROWS: usize = Profile::ROW * Profile::BATCHES as usize;

    // The limits are those of document 01.
    pub fn limits() -> Limits
        ensures { result ≡ limits }
    {
        Limits {
            bytes: Profile::BYTES,
            batches: Profile::BATCHES,
            transactions: Profile::TRANSACTIONS,
            cents: Profile::CENTS,
            collections: Profile::COLLECTIONS,
            ceiling: Profile::CEILING,
        }
    }

    // Nothing was read.
    pub fn fresh() -> Self
        ensures { result.tally ≡ fresh_tally }
    {
        Profile {
            tally: Tally::fresh(),
        }
    }
}

// ─── the refusals ───

// The kind of rule that a text breaks, with the number of its refusal.
#[derive(Clone, Copy, Debug, PartialEq, Eq)]
pub enum Flaw {
    Length = 51,
    Letter = 52,
    Slash = 53,
    Number = 54,
    Date = 55,
    Code = 56,
    Shape = 57,
    CheckDigits = 58,
}

// Why a message is refused, with the place that the case has.
#[derive(Clone, Copy, Debug, PartialEq, Eq)]
pub enum Refusal {
    TooLong,
    NotOfTheForm(usize),
    TooManyBatches(usize),
    TooManyTransactions(usize),
    Text(Flaw, usize),
    AddressMix(usize),
    BatchCount(usize),
    BatchSum(usize),
    MessageCount(usize),
    MessageSum(usize),
    SlipsTooShort(usize),
    BatchesTooShort(usize),
}

// Why a day list is refused, with the place that the case has; of a value its flaw, its line and its field.
#[derive(Clone, Copy, Debug, PartialEq, Eq)]
pub enum ListRefusal {
    TooLong,
    Ceiling,
    NotAFrame(usize),
    NoCollection(usize),
    TooManyCollections,
    Value(Flaw, usize, usize),
    TooManyBatches(usize),
    OutputTooShort(usize),
}
