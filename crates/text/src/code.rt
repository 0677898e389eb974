// The fixed codes. A code states its place, from 0, among the words that are allowed.
ghost use Rattle.std.specs.Prelude.{◌≡◌, map};
ghost use Rattle.text.specs.Rules.{code_from};

use profile::Flaw;

// One of the words.
pub fn one_of(words: &[&str], text: &[u8]) -> Result<u64, Flaw>
    ensures { result ≡ code_from 0 (map (λ w. w.now) words.now) text.now }
{
    words
        .iter()
        .position(|word| marks::is_same(text, word.as_bytes()))
        .map(|place| place as u64)
        .ok_or(Flaw::Code)
}
