// Where the lines of a list end.
ghost use Rattle.std.specs.Prelude.{◌≡◌, ◌+◌, ◌≤◌, length, drop};
ghost use Rattle.laws.specs.Bytes.{span};
ghost use Rattle.frames.specs.Lines.{not_end};

// Where the line ends that starts at a place: at its LF, or at the end of the list.
pub fn line_end(list: &[u8], start: usize) -> usize
    requires { start ≤ length list.now }
    ensures { (result ≡ start + span not_end (drop start list.now)) × (result ≤ length list.now) }
{
    start + frames::lines::line_length(&list[start..])
}
