// A byte writer: an output that a caller lends, and the place in it where the next byte goes. Each method takes what to write, and the place moves past it whether or
// not there is room. Where there is room the bytes stand there, and nothing else changes. So a run on an empty output gives the bytes needed, by the very same code.
// What each method asks of the place (`at + n < 2 ^ 32`) has another n in each: so no type has it.
#![tactic(auto)]

ghost use Rattle.std.specs.Prelude.{◌≡◌, ◌+◌, ◌≤◌, ◌<◌, ◌^◌, length, drop};
ghost use Rattle.frames.specs.Hex.{unhex};
ghost use Rattle.put.specs.Numerals.{last_digit, decimal, euros, batch_id};
ghost use Rattle.put.specs.Wrote.{Wrote};

use profile::{ControlSum, NumberOfTransactions};

// The output, and the place of the next byte, which may be past its end.
#[derive(Drop)]
pub struct Output<'a> {
    pub bytes: &'a mut [u8],
    pub at: usize,
}

impl<'a> Output<'a> {
    // The output from its first byte on.
    pub fn new(bytes: &'a mut [u8]) -> Self
        ensures same_reference { result.bytes.ghost_name ≡ bytes.entry.ghost_name }
        ensures value { (result.bytes.now ≡ bytes.old) × (result.at ≡ 0) }
    {
        Output { bytes, at: 0 }
    }

    // ─── bytes ───

    // Bytes.
    #[tactic(auto, unfolding(laws::specs::Put::put_at))]
    pub fn put(&mut self, bytes: &[u8])
        requires { self.old.at + length bytes.now < 2 ^ 32 }
        ensures { Wrote self.old self.new bytes.now }
    {
        let end = self.at + bytes.len();
        if end <= self.bytes.len() {
            self.bytes[self.at..end].copy_from_slice(bytes);
        }
        self.at = end;
    }

    // The bytes that hexadecimal digits stand for.
    pub fn put_hex(&mut self, digits: &[u8])
        requires { self.old.at + length (unhex digits.now) < 2 ^ 32 }
        ensures { Wrote self.old self.new (unhex digits.now) }
    {
        let end = self.at + digits.len() / 2;
        if end <= self.bytes.len() {
            frames::hex::bytes_from(digits, 0, &mut self.bytes[self.at..end]);
        }
        self.at = end;
    }

    // ─── numbers ───

    // A number without leading zeros.
    // No `write!`, here as in `put_euros` and `put_batch_id`: an output without room is no error here, and a Result at each number would be thrown away.
    fn put_decimal(&mut self, n: u64)
        requires { self.old.at + 20 < 2 ^ 32 }
        ensures wrote { Wrote self.old self.new (decimal n) }
        ensures upper_bound { self.new.at ≤ self.old.at + 20 }
    {
        let mut digits = [0u8; 20];
        let from = digits_of(n, &mut digits);
        self.put(&digits[from..]);
    }

    // A number of transactions.
    pub fn put_count(&mut self, count: NumberOfTransactions)
        requires { self.old.at + 20 < 2 ^ 32 }
        ensures wrote { Wrote self.old self.new (decimal count.0) }
        ensures upper_bound { self.new.at ≤ self.old.at + 20 }
    {
        self.put_decimal(count.0);
    }

    // Cents as euros, with two decimals and no needless leading zero.
    pub fn put_euros(&mut self, sum: ControlSum)
        requires { self.old.at + 23 < 2 ^ 32 }
        ensures wrote { Wrote self.old self.new (euros sum.0) }
        ensures upper_bound { self.new.at ≤ self.old.at + 23 }
    {
        let cents = sum.0;
        self.put_decimal(cents / 100);
        self.put(&[b'.', last_digit(cents / 10), last_digit(cents)]);
    }

    // `B` and three digits.
    pub fn put_batch_id(&mut self, n: u64)
        requires { self.old.at + 4 < 2 ^ 32 }
        ensures { Wrote self.old self.new (batch_id n) }
    {
        self.put(&[b'B', last_digit(n / 100), last_digit(n / 10), last_digit(n)]);
    }
}

// The last digit of a number.
fn last_digit(n: u64) -> u8
    ensures { result ≡ last_digit n }
{
    b'0' + (n % 10) as u8
}

// The digits of a number without leading zeros, into the end of the buffer; answers where they start.
// By index from the end, since it ends at the first digit, and answers where that stands.
fn digits_of(n: u64, digits: &mut [u8; 20]) -> usize
    ensures { (result ≤ 20) × (drop result digits.new ≡ decimal n) }
{
    let mut left = n;
    for from in (0..20).rev() {
        digits[from] = last_digit(left);
        if left < 10 {
            return from;
        }
        left /= 10;
    }
    0
}
