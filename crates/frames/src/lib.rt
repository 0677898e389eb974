// What the lines of a day list hold: frames, each a kind byte, lead bytes and texts, in hexadecimal digits.
//
//   hex     hexadecimal digits, and the bytes that they stand for
//   lines   where the lines end and start
#![tactic(auto)]

ghost use Rattle.std.specs.Prelude.{◌≡◌, true, ◌<◌, min};
ghost use Rattle.frames.specs.Hex.{unhex};
ghost use Rattle.frames.specs.Frames.{frame_of, framed};
ghost use Rattle.frames.specs.Parts.{part_of};

pub mod hex;
pub mod lines;

// A kind of frame: its kind byte, the number of its lead bytes, which follow, and the number of its texts after those.
#[derive(Clone, Copy)]
pub struct Frame {
    pub kind: u8,
    pub lead: usize,
    pub texts: usize,
}

// A text field of a frame: its rule, and whether length 0 is good there.
#[derive(Clone, Copy)]
pub enum Field {
    Needed(text::Rule),
    Optional(text::Rule),
}

// Where a text stands in its line: the digits of its bytes, two a byte.
// Places and no slice: `text_part` is named in docs/PROMISES.md, and says where a text stands.
#[derive(Clone, Copy)]
pub struct TextPart {
    pub start: usize,
    pub length: usize,
}

// The creditor's frame.
pub const CREDITOR: Frame = Frame {
    kind: 1,
    lead: 0,
    texts: 7,
};

// The frame of a collection.
pub const COLLECTION: Frame = Frame {
    kind: 2,
    lead: 7,
    texts: 8,
};

// The frame that a line must hold, lines counted from 1: the creditor's, then collections. A line's number says its kind, here as in the definitions: an enum of the two
// would be made of that number at each call.
pub fn frame_of(line: usize) -> Frame
    ensures { result ≡ frame_of line }
{
    if line == 1 { CREDITOR } else { COLLECTION }
}

// The bytes that the line stands for are the frame's: its kind byte, its lead bytes, its texts, each a length byte and its bytes, and nothing after the last.
pub fn is_framed(line: &[u8], frame: Frame) -> bool
    ensures { result ≡ framed frame (unhex line.now) }
{
    let end = line.len() / 2;
    if end == 0 || hex::byte_at(line, 0) != frame.kind || end - 1 < frame.lead {
        return false;
    }
    let mut at = 1 + frame.lead;
    for _ in 0..frame.texts {
        if end <= at {
            return false;
        }
        let size = usize::from(hex::byte_at(line, at));
        at += 1;
        if end - at < size {
            return false;
        }
        at += size;
    }
    at == end
}

// Where the text number `i`, counted from 0, stands in a line that holds the frame.
pub fn text_part(line: &[u8], frame: Frame, i: usize) -> TextPart
    requires { (framed frame (unhex line.now) ≡ true) × (i < frame.texts) }
    ensures { result ≡ part_of frame i (unhex line.now) }
{
    let mut at = 1 + frame.lead;
    for _ in 0..i {
        at += 1 + usize::from(hex::byte_at(line, at));
    }
    let size = usize::from(hex::byte_at(line, at));
    TextPart {
        start: (at + 1) * 2,
        length: size * 2,
    }
}
