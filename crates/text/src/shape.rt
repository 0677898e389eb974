// IBAN, BICFI, creditor identifier and country.
ghost use Rattle.std.specs.Prelude.{ℕ, Bool, ◌≤◌, true, ◌++◌, ◌≡◌, eqb, length, take, drop};
ghost use Rattle.laws.specs.Bytes.{all};
ghost use Rattle.marks.specs.Classes.{Tells};
ghost use Rattle.marks.specs.Marks.{letter_or_digit};
ghost use Rattle.text.specs.Rules.{leaves, iban, bic, creditor_identifier, country};
ghost use Rattle.text.specs.Shapes.{shaped, letter_marks, OfLetters, checked};

use profile::Flaw;

// The front has the shape of the pattern, and after it stand 1 to `longest` bytes of a class, which the closure tells.
fn is_shaped<F: Fn(u8) -> bool>(text: &[u8], pattern: &[u8], longest: usize, is_in: F) -> bool
    requires { F.IsAlwaysCallable is_in }
    ensures { (p : ℕ → Bool) → Tells (F.post is_in) p → result ≡ shaped pattern.now longest p text.now }
{
    match text.split_at_checked(pattern.len()) {
        Some((front, rest)) => {
            marks::has_shape(front, pattern)
                && (1..=longest).contains(&rest.len())
                && marks::run(rest, is_in) == rest.len()
        }
        None => false,
    }
}

// The bytes from `rest` on and the first four after them spell a number that leaves 1 on division by 97.
fn leaves_one(text: &[u8], rest: usize) -> bool
    requires { (4 ≤ rest) × (rest ≤ length text.now) × (all letter_or_digit text.now ≡ true) }
    ensures { result ≡ eqb (leaves (take 4 text.now ++ drop rest text.now)) 1 }
{
    let left = marks::remainder(0, &text[rest..]);
    marks::remainder(left, &text[..4]) == 1
}

// A text with check digits: it has the shape, and the first four moved to the end and the rest of the front left out, the number leaves 1 on division by 97.
fn checked<F: Fn(u8) -> bool>(
    text: &[u8],
    front: &[u8],
    longest: usize,
    is_in: F,
) -> Result<u64, Flaw>
    requires callable { F.IsAlwaysCallable is_in }
    requires front { letter_marks front.now ≡ true }
    requires class { (p : ℕ → Bool) × Tells (F.post is_in) p × OfLetters p }
    ensures { (p : ℕ → Bool) → Tells (F.post is_in) p → result ≡ checked front.now longest p text.now }
{
    if !is_shaped(text, front, longest, is_in) {
        return Err(Flaw::Shape);
    }
    if !leaves_one(text, front.len()) {
        return Err(Flaw::CheckDigits);
    }
    Ok(0)
}

// Two capitals, two digits, 1 to 30 letters or digits.
pub fn iban(text: &[u8]) -> Result<u64, Flaw>
    ensures { result ≡ iban text.now }
{
    checked(text, b"AADD", 30, marks::is_letter_or_digit)
}

// Two capitals, two digits, the business code of three capitals or digits, 1 to 28 capitals or digits.
pub fn creditor_identifier(text: &[u8]) -> Result<u64, Flaw>
    ensures { result ≡ creditor_identifier text.now }
{
    checked(text, b"AADDNNN", 28, marks::is_capital_or_digit)
}

// Four capitals or digits, two capitals, two capitals or digits, optionally three more; not NOTPROVIDED.
pub fn bic(text: &[u8]) -> Result<u64, Flaw>
    ensures { result ≡ bic text.now }
{
    if (marks::has_shape(text, b"NNNNAANN") || marks::has_shape(text, b"NNNNAANNNNN"))
        && !marks::is_same(text, b"NOTPROVIDED")
    {
        Ok(0)
    } else {
        Err(Flaw::Shape)
    }
}

// Two capitals.
pub fn country(text: &[u8]) -> Result<u64, Flaw>
    ensures { result ≡ country text.now }
{
    if !marks::has_shape(text, b"AA") {
        return Err(Flaw::Shape);
    }
    Ok(0)
}
