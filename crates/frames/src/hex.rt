// Hexadecimal digits 0-9 A-F, and the bytes that two of them stand for.
ghost use Rattle.std.specs.Prelude.{◌≡◌, ◌+◌, ◌*◌, ◌≤◌, max, eqb, length, take, drop, get_or};
ghost use Rattle.laws.specs.Bytes.{all};
ghost use Rattle.laws.specs.Put.{put_at};
ghost use Rattle.frames.specs.Hex.{hex_digit, hex_value, hex, unhex};

// A digit. A small letter is none.
pub fn is_hex_digit(c: u8) -> bool
    ensures { result ≡ hex_digit c }
{
    matches!(c, b'0'..=b'9' | b'A'..=b'F')
}

// What a digit is worth, and 0 where it is none. Not a `match` on the two ranges: for that the compiler branches at each digit, and `decode` loses its many at once.
pub fn hex_value(c: u8) -> u8
    ensures { result ≡ hex_value c }
{
    if marks::is_digit(c) {
        return c - b'0';
    }
    if (b'A'..=b'F').contains(&c) {
        return c - b'A' + 10;
    }
    0
}

// Every byte is a digit. Every byte is looked at, none depends on another: so the compiler takes many at once.
fn all_digits(line: &[u8]) -> bool
    ensures { result ≡ all hex_digit line.now }
{
    let mut good = true;
    for &c in line {
        good &= is_hex_digit(c);
    }
    good
}

// An even number of digits.
pub fn is_hex(line: &[u8]) -> bool
    ensures { result ≡ hex line.now }
{
    line.len() % 2 == 0 && all_digits(line)
}

// The byte at a place of those that the line stands for, counted from 0, and 0 beyond their end.
pub fn byte_at(line: &[u8], place: usize) -> u8
    ensures { result ≡ get_or (unhex line.now) place 0 }
{
    if line.len() / 2 <= place {
        return 0;
    }
    let high = hex_value(line[place * 2]);
    let low = hex_value(line[place * 2 + 1]);
    high * 16 + low
}

// ─── many bytes ───

// Fills `to` with the bytes that the digits stand for: first what each digit is worth, then two a byte. With a width that is known the compiler takes many at once.
// By index and no zip: `values` is longer than what is read, and of a zip of `iter_mut` a proof does not learn what was written.
fn decode(digits: &[u8], to: &mut [u8])
    requires { (length digits.now ≡ length to.old * 2) × (length to.old ≤ 16) }
    ensures { to.new ≡ unhex digits.now }
{
    let mut values = [0u8; 32];
    for i in 0..digits.len() {
        values[i] = hex_value(digits[i]);
    }
    for i in 0..to.len() {
        to[i] = values[i * 2] * 16 + values[i * 2 + 1];
    }
}

// The `width` bytes from `place` on, into `out` from `to` on.
// That the bytes are there (`place + ..`) is asked of a line and a place in it, as of a slice: a type of both would be made at each stride.
fn stride(line: &[u8], place: usize, width: usize, to: usize, out: &mut [u8])
    requires width_bound { (width ≤ 16) × (to + width ≤ length out.old) }
    requires width_in_bounds { place + width ≤ length (unhex line.now) }
    ensures { out.new ≡ put_at out.old to (take width (drop place (unhex line.now))) }
{
    let at = place * 2;
    decode(&line[at..at + width * 2], &mut out[to..to + width]);
}

// Fills `out` with the bytes from a place on, so many at a time. The last stride ends where `out` ends: it may go over some bytes again, as no chunk of `out` does. As a
// `for` with `step_by` its last goal, `returns`, did not close.
fn in_strides(line: &[u8], place: usize, width: usize, out: &mut [u8])
    requires le_width { (1 ≤ width) × ((width ≤ 16) × (width ≤ length out.old)) }
    requires out_in_bounds { place + length out.old ≤ length (unhex line.now) }
    ensures { out.new ≡ take (length out.old) (drop place (unhex line.now)) }
{
    let last = out.len() - width;
    let mut i = 0;
    while i < last {
        stride(line, place + i, width, i, out);
        i += width;
    }
    stride(line, place + last, width, last, out);
}

// Fills `out` with the bytes from a place on.
pub fn bytes_from(line: &[u8], place: usize, out: &mut [u8])
    requires { place + length out.old ≤ length (unhex line.now) }
    ensures { out.new ≡ take (length out.old) (drop place (unhex line.now)) }
{
    if 16 <= out.len() {
        in_strides(line, place, 16, out);
        return;
    }
    if 8 <= out.len() {
        in_strides(line, place, 8, out);
        return;
    }
    if 0 < out.len() {
        in_strides(line, place, 1, out);
    }
}
