// Single bytes and runs of them: the classes that document 01's text rules speak of, the letter set among them, patterns, and the numbers that bytes spell.
#![tactic(auto)]

ghost use Rattle.std.specs.Prelude.{ℕ, Bool, ◌≡◌, true, ◌≤◌, ◌<◌, ◌%◌, length};
ghost use Rattle.laws.specs.Bytes.{all, span, same, has};
ghost use Rattle.marks.specs.Classes.{Tells};
ghost use Rattle.marks.specs.Marks.{digit, capital, capital_or_digit, letter_or_digit, letter, slashed, mark, fits, value, letter_value, spelled_from};

// ─── one byte ───

// 0-9.
pub fn is_digit(c: u8) -> bool
    ensures { result ≡ digit c }
{
    c.is_ascii_digit()
}

// A-Z.
pub fn is_capital(c: u8) -> bool
    ensures { result ≡ capital c }
{
    c.is_ascii_uppercase()
}

// A-Z 0-9.
pub fn is_capital_or_digit(c: u8) -> bool
    ensures { result ≡ capital_or_digit c }
{
    is_capital(c) || is_digit(c)
}

// A-Z 0-9 a-z.
pub fn is_letter_or_digit(c: u8) -> bool
    ensures { result ≡ letter_or_digit c }
{
    c.is_ascii_alphanumeric()
}

// The byte stands in the row. Every mark is looked at, so that the compiler makes a few comparisons of a row that it knows: with `contains` a text of letters
// takes half as long again.
fn has(row: &[u8], c: u8) -> bool
    ensures { result ≡ has row.now c }
{
    let mut found = false;
    for &mark in row {
        found |= c == mark;
    }
    found
}

// ─── the letter set: source document 003, II.4 ───

// Its 73 marks, in the order in which they are printed.
const LETTERS: [u8; 73] =
    *b"abcdefghijklmnopqrstuvwxyzABCDEFGHIJKLMNOPQRSTUVWXYZ0123456789/-?:().,'+ ";

// A byte of the letter set.
pub fn is_letter(c: u8) -> bool
    ensures { result ≡ letter c }
{
    has(&LETTERS, c)
}

// ─── runs of a class ───

// Every byte is of the letter set. Each is looked at, whatever those before it are, so that the compiler takes many at once: with `all` a text takes four times as
// long.
pub fn all_letters(text: &[u8]) -> bool
    ensures { result ≡ all letter text.now }
{
    let mut good = true;
    for &c in text {
        good &= is_letter(c);
    }
    good
}

// How many bytes at the front are in a class, which the closure tells.
pub fn run<F: Fn(u8) -> bool>(text: &[u8], is_in: F) -> usize
    requires { F.IsAlwaysCallable is_in }
    ensures { (p : ℕ → Bool) → Tells (F.post is_in) p → result ≡ span p text.now }
{
    text.iter().position(|&c| !is_in(c)).unwrap_or(text.len())
}

// How many digits stand at the front.
pub fn digits(text: &[u8]) -> usize
    ensures { result ≡ span digit text.now }
{
    run(text, is_digit)
}

// A `/` at the beginning or at the end, or `//`.
pub fn is_slashed(text: &[u8]) -> bool
    requires { 1 ≤ length text.now }
    ensures { result ≡ slashed text.now }
{
    let mut before = b'/';
    for &c in text {
        if c == b'/' && before == b'/' {
            return true;
        }
        before = c;
    }
    before == b'/'
}

// ─── two runs held against each other ───

// The same bytes.
// Beside `==`, since its contract says `same`, and a call gives an array of bytes as it is.
pub fn is_same(text: &[u8], word: &[u8]) -> bool
    ensures { result ≡ same text.now word.now }
{
    text == word
}

// A byte that the mark of a pattern stands for: D a digit, A a capital, N a capital or digit, every other mark itself.
pub fn is_mark(p: u8, c: u8) -> bool
    ensures { result ≡ mark p c }
{
    match p {
        b'D' => is_digit(c),
        b'A' => is_capital(c),
        b'N' => is_capital_or_digit(c),
        _ => p == c,
    }
}

// The text has the shape of the pattern.
pub fn has_shape(text: &[u8], pattern: &[u8]) -> bool
    ensures { result ≡ fits pattern.now text.now }
{
    text.len() == pattern.len() && pattern.iter().zip(text).all(|(&p, &c)| is_mark(p, c))
}

// ─── numbers ───

// The number that at most 15 digits spell.
// `parse` reads a `&str` and answers a Result: of bytes that are known to be digits it is no plainer.
pub fn number(text: &[u8]) -> u64
    requires { (length text.now ≤ 15) × (all digit text.now ≡ true) }
    ensures { result ≡ value text.now }
{
    let mut v: u64 = 0;
    for &c in text {
        v = v * 10 + u64::from(c - b'0');
    }
    v
}

// A letter as 10 to 35, a digit as itself.
// `to_digit(36)` reads a char and answers an Option: with both conversions around it, it is no plainer.
pub fn letter_number(c: u8) -> u64
    requires { letter_or_digit c ≡ true }
    ensures { result ≡ letter_value c }
{
    u64::from(match c {
        b'0'..=b'9' => c - b'0',
        b'A'..=b'Z' => c - b'A' + 10,
        _ => c - b'a' + 10,
    })
}

// The number so far followed by a text of at most eight letters and digits.
// What is asked of a text, here and of `remainder`, is asked of a part of one: a type would be made of each part anew.
fn spelled(left: u64, text: &[u8]) -> u64
    requires { (left < 97) × ((length text.now ≤ 8) × (all letter_or_digit text.now ≡ true)) }
    ensures { result ≡ spelled_from left text.now }
{
    let mut v = left;
    for &c in text {
        v = match c {
            b'0'..=b'9' => v * 10 + u64::from(c - b'0'),
            _ => v * 100 + letter_number(c),
        };
    }
    v
}

// What the number spelled so far leaves on division by 97, once the text follows it. It is divided once for eight bytes.
pub fn remainder(left: u64, text: &[u8]) -> u64
    requires { (left < 97) × (all letter_or_digit text.now ≡ true) }
    ensures { result ≡ spelled_from left text.now % 97 }
{
    let mut v = left;
    for eight in text.chunks(8) {
        v = spelled(v, eight) % 97;
    }
    v
}
