// A line that holds its frame, and its texts. Line 1 is the creditor's, every further line a collection; the texts count from 0.
ghost use Rattle.std.specs.Prelude.{◌≡◌, true, ◌+◌, ◌*◌, ◌≤◌, ◌<◌, ◌^◌, length, take, drop};
ghost use Rattle.frames.specs.Hex.{unhex};
ghost use Rattle.frames.specs.Frames.{frame_of, framed};
ghost use Rattle.frames.specs.Parts.{part_of};
ghost use Rattle.put.specs.Wrote.{Wrote};
ghost use Rattle.written.specs.Pieces.{bank_bytes};
ghost use Rattle.pieces.specs.Texts.{line_text};

use put::Output;

// The digits of a line: they hold the frame of line NUMBER.
// NUMBER is a line's number, and no enum of the two kinds: the definitions speak of line n (`frame_of`).
#[derive(Clone, Copy)]
pub struct Line<'a, const NUMBER: usize> {
    pub digits: &'a [u8],
    pub ghost framed: { framed (frame_of NUMBER) (unhex digits.now) ≡ true },
}

pub type CreditorLine<'a> = Line<'a, 1>;

// Of line 2, and so of every further line.
pub type CollectionLine<'a> = Line<'a, 2>;

impl<'a, const NUMBER: usize> Line<'a, NUMBER> {
    // The digits of a text.
    pub fn text(&self, i: usize) -> &'a [u8]
        requires { i < (frame_of NUMBER).texts }
        ensures digits { let part = part_of (frame_of NUMBER) i (unhex self.now.digits.now) in
            result.now ≡ take part.length (drop part.start self.now.digits.now) }
        ensures value { unhex result.now ≡ line_text NUMBER i (unhex self.now.digits.now) }
        ensures length_value { length result.now ≡ length (unhex result.now) * 2 }
        ensures length_bound { length (unhex result.now) ≤ 255 }
    {
        let part = frames::text_part(self.digits, frames::frame_of(NUMBER), i);
        &self.digits[part.start..part.start + part.length]
    }

    // Writes a text.
    pub fn put_text(&self, out: &mut Output<'_>, i: usize)
        requires i_bound { i < (frame_of NUMBER).texts }
        requires at_bound { out.old.at + 255 < 2 ^ 32 }
        ensures wrote { Wrote out.old out.new (line_text NUMBER i (unhex self.now.digits.now)) }
        ensures upper_bound { out.new.at ≤ out.old.at + 255 }
    {
        out.put_hex(self.text(i));
    }

    // Writes a bank: its BIC, or NOTPROVIDED where the text is empty.
    pub fn put_bank(&self, out: &mut Output<'_>, i: usize)
        requires i_bound { i < (frame_of NUMBER).texts }
        requires at_bound { out.old.at + 300 < 2 ^ 32 }
        ensures wrote { Wrote out.old out.new (bank_bytes (line_text NUMBER i (unhex self.now.digits.now))) }
        ensures upper_bound { out.new.at ≤ out.old.at + 300 }
    {
        let bic = self.text(i);
        if bic.is_empty() {
            out.put(b"<FinInstnId><Othr><Id>NOTPROVIDED</Id></Othr></FinInstnId>");
            return;
        }
        out.put(b"<FinInstnId><BICFI>");
        out.put_hex(bic);
        out.put(b"</BICFI></FinInstnId>");
    }
}
