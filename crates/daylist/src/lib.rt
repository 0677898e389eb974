// The day list: the values of its lines, and the refusals 21 to 25 and 51 to 58. Any bytes are judged, at any ceiling.
//
//   lines    where the lines of a list end
//   values   the values of a line, field by field
//   stages   the stages that go over all lines: refusals 23, and 51 to 58
#![tactic(auto)]

ghost use Rattle.std.specs.Prelude.{◌≡◌};
ghost use Rattle.daylist.specs.Stages.{judged_list};

use profile::{ListRefusal, Profile};

pub mod lines;
pub mod stages;
pub mod values;

// The first field of a line that breaks its rule: its flaw, and its number, from 1.
#[derive(Clone, Copy)]
pub struct BadField {
    pub flaw: profile::Flaw,
    pub field: usize,
}

// The list judged, its stages in order: refused with the first of them that finds a fault, or good, with the number of its collections.
pub fn judge_list(list: &[u8], ceiling: u64) -> Result<usize, ListRefusal>
    ensures { result ≡ judged_list list.now ceiling }
{
    if Profile::BYTES < list.len() {
        return Err(ListRefusal::TooLong);
    }
    if !(1..=Profile::CEILING).contains(&ceiling) {
        return Err(ListRefusal::Ceiling);
    }
    let lines = stages::judge_frames(list)?;
    if lines < 2 {
        return Err(ListRefusal::NoCollection(lines));
    }
    if Profile::LINES < lines {
        return Err(ListRefusal::TooManyCollections);
    }
    stages::judge_values(list)?;
    Ok(lines - 1)
}
