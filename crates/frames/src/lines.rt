// The lines of a list, cut at LF.
ghost use Rattle.std.specs.Prelude.{◌≡◌, ◌+◌, ◌≤◌, length, take, drop};
ghost use Rattle.laws.specs.Bytes.{all, span};
ghost use Rattle.laws.specs.Put.{put_at};
ghost use Rattle.frames.specs.Lines.{not_end, starts};

// No byte of the text is LF. Every byte is looked at, none depends on another: so the compiler takes many at once.
fn is_within(text: &[u8]) -> bool
    ensures { result ≡ all not_end text.now }
{
    let mut within = true;
    for &c in text {
        within &= c != b'\n';
    }
    within
}

// How far whole stretches of so many bytes without LF go, from a place on that has no LF before it.
fn stretches(text: &[u8], from: usize, width: usize) -> usize
    requires le_width { 1 ≤ width }
    requires from_in_bounds { (from ≤ length text.now) × (span not_end text.now ≡ from + span not_end (drop from text.now)) }
    ensures { (result ≤ length text.now) × (span not_end text.now ≡ result + span not_end (drop result text.now)) }
{
    let mut at = from;
    while width <= text.len() - at {
        if !is_within(&text[at..at + width]) {
            return at;
        }
        at += width;
    }
    at
}

// How many bytes stand before the first LF; all of them where there is none.
pub fn line_length(text: &[u8]) -> usize
    ensures { result ≡ span not_end text.now }
{
    let far = stretches(text, 0, 64);
    let near = stretches(text, far, 8);
    near + marks::run(&text[near..], |c| c != b'\n')
}

// A line is found again by a table of starts, at most 1,001 numbers that the caller lends: it is filled in one pass over the bytes, and then each line is reached
// at once. Without it the n-th line costs a walk over all lines before it, and a batch reads its lines out of order.

// Writes where each line starts into the front of the table, in order, as far as the table goes. The rest of the table stays as it was.
pub fn line_starts(list: &[u8], table: &mut [usize])
    ensures { table.new ≡ put_at table.old 0 (take (length table.old) (starts list.now)) }
{
    let mut at = 0;
    for start in table {
        if list.len() <= at {
            return;
        }
        *start = at;
        at += line_length(&list[at..]);
        if at < list.len() {
            at += 1;
        }
    }
}
