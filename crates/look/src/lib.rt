// One look over a text of letters, with the rank of each byte at hand in a lent table: it finds a good text and its end at once. Of every other text it says
// nothing, and its rule judges it.
// The table is a slice whose ranks are asked for (`ranked`), and no struct that has them: it is the one of `plan`, whose functions take any table.
#![tactic(auto)]

ghost use Rattle.std.specs.Prelude.{◌≡◌, ◌+◌, ◌≤◌, T, length, drop};
ghost use Rattle.laws.specs.Bytes.{span};
ghost use Rattle.marks.specs.Ranks.{at_least, ranked};
ghost use Rattle.look.specs.Look.{PlainLook, GoodLook};

use text::Rule;

// A byte whose rank is at least `least`. The table `t` begins with the ranks of all bytes.
fn is_ranked(t: &[u8], c: u8, least: u8) -> bool
    requires { T (ranked t.now) }
    ensures { result ≡ at_least least c }
{
    least <= t[usize::from(c)]
}

// Where the bytes of a rank that begin at `at` end. Four bytes are looked at in a round, while there are four, as in `scan::text_end`.
fn run_end(s: &[u8], t: &[u8], at: usize, least: u8) -> usize
    requires { (at ≤ length s.now) × T (ranked t.now) }
    ensures { result ≡ at + span (at_least least) (drop at s.now) }
{
    let mut i = at;
    while 4 <= s.len() - i {
        if !is_ranked(t, s[i], least) {
            return i;
        }
        if !is_ranked(t, s[i + 1], least) {
            return i + 1;
        }
        if !is_ranked(t, s[i + 2], least) {
            return i + 2;
        }
        if !is_ranked(t, s[i + 3], least) {
            return i + 3;
        }
        i += 4;
    }
    i + marks::run(&s[i..], |c| is_ranked(t, c, least))
}

// A look at a text of 1 to `longest` bytes of a rank, up to the next tag: where it ends, if it is good. A good text of these rules states no number.
fn look_plain(s: &[u8], t: &[u8], at: usize, least: u8, longest: usize) -> Option<usize>
    requires { (at ≤ length s.now) × (T (ranked t.now) × (1 ≤ least)) }
    ensures { PlainLook least longest s.now at result }
{
    let end = run_end(s, t, at, least);
    if end == s.len() || s[end] != b'<' || end == at || longest < end - at {
        return None;
    }
    Some(end)
}

// A look at a text of a rule. An identifier with a slash is left to its rule.
pub fn look_at(rule: Rule, s: &[u8], t: &[u8], at: usize) -> Option<usize>
    requires { (at ≤ length s.now) × T (ranked t.now) }
    ensures { GoodLook rule s.now at result }
{
    let (least, longest) = match rule {
        Rule::Identifier => (2, 35),
        Rule::Name | Rule::AddressLine => (1, 70),
        Rule::Remittance => (1, 140),
        Rule::AddressCode => (1, 16),
        Rule::Town => (1, 35),
        _ => return None,
    };
    look_plain(s, t, at, least, longest)
}
