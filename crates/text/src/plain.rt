// Texts of the letter set: their length is tested first, then their letters, then the slashes of an identifier.
ghost use Rattle.std.specs.Prelude.{◌≡◌};
ghost use Rattle.text.specs.Rules.{plain, identifier};

use profile::Flaw;

// 1 to `longest` bytes of the letter set.
pub fn plain_text(text: &[u8], longest: usize) -> Result<u64, Flaw>
    ensures { result ≡ plain longest text.now }
{
    if !(1..=longest).contains(&text.len()) {
        return Err(Flaw::Length);
    }
    if !marks::all_letters(text) {
        return Err(Flaw::Letter);
    }
    Ok(0)
}

// MsgId, PmtInfId, InstrId, EndToEndId, MndtId: 1 to 35, not beginning or ending with `/`, no `//`.
pub fn identifier(text: &[u8]) -> Result<u64, Flaw>
    ensures { result ≡ identifier text.now }
{
    plain_text(text, 35)?;
    if marks::is_slashed(text) {
        return Err(Flaw::Slash);
    }
    Ok(0)
}
