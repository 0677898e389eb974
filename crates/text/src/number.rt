// Counts of transactions, sums and amounts of euros.
ghost use Rattle.std.specs.Prelude.{◌≡◌, ◌≤◌, Ok};
ghost use Rattle.text.specs.Rules.{must, count, decimals, hundredths, in_euros, cents, sum, amount};
ghost use Rattle.profile.specs.declared.Flaw.TheVariants.{Number};

use profile::Flaw;

// NbOfTxs: 1 to 15 digits.
pub fn count(text: &[u8]) -> Result<u64, Flaw>
    ensures { result ≡ count text.now }
{
    if (1..=15).contains(&text.len()) && marks::digits(text) == text.len() {
        Ok(marks::number(text))
    } else {
        Err(Flaw::Number)
    }
}

// What stands after the whole euros: nothing, or a point and one or two digits. It states their cents.
fn behind_point(text: &[u8]) -> Result<u64, Flaw>
    ensures { result ≡ must (decimals text.now) Number (Ok (hundredths text.now)) }
{
    match *text {
        [] => Ok(0),
        [b'.', tens @ b'0'..=b'9'] => Ok(u64::from(tens - b'0') * 10),
        [b'.', tens @ b'0'..=b'9', ones @ b'0'..=b'9'] => {
            Ok(u64::from(tens - b'0') * 10 + u64::from(ones - b'0'))
        }
        _ => Err(Flaw::Number),
    }
}

// 1 to `longest` digits, then optionally a point and 1 or 2 digits. It states the cents.
fn euro_text(text: &[u8], longest: usize) -> Result<u64, Flaw>
    requires { longest ≤ 15 }
    ensures { result ≡ must (in_euros longest text.now) Number (Ok (cents text.now)) }
{
    let (whole, rest) = text.split_at(marks::digits(text));
    if !(1..=longest).contains(&whole.len()) {
        return Err(Flaw::Number);
    }
    let h = behind_point(rest)?;
    Ok(marks::number(whole) * 100 + h)
}

// CtrlSum: at most 15 digits before the point. docs/PROMISES.md names it.
pub fn sum(text: &[u8]) -> Result<u64, Flaw>
    ensures { result ≡ sum text.now }
{
    euro_text(text, 15)
}

// InstdAmt: at most 9 digits before the point, worth 0.01 to 999999999.99.
pub fn amount(text: &[u8]) -> Result<u64, Flaw>
    ensures { result ≡ amount text.now }
{
    let c = euro_text(text, 9)?;
    if !(1..=profile::Profile::CENTS).contains(&c) {
        return Err(Flaw::Number);
    }
    Ok(c)
}
