// A refused list as it is printed.
#![tactic(auto)]

use profile::ListRefusal;
use std::fmt;

// `NO`, number and place, and the field of a value, which is not 0.
#[derive(Drop)]
pub struct Refused(pub ListRefusal);

impl fmt::Display for Refused {
    fn fmt<W: fmt::Write>(&self, f: &mut fmt::Formatter<W>) -> fmt::Result {
        let refusal = self.0;
        write!(f, "NO {} {}", refusal.number(), refusal.place())?;
        match refusal.field() {
            0 => Ok(()),
            field => write!(f, " {field}"),
        }
    }
}
