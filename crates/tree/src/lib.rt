// The tree of a message: what a message of the form is, and what it says. The definitions are in specs/.
#![tactic(auto)]

// What stands between an element's opening tag and its first child or closing tag.
// No Option<Rule>: the definitions of the form (specs/Form, specs/Pain008), which have to be believed, are written in `Holds` and `Text`.
#[derive(Clone, Copy)]
pub enum Kind {
    // White space: the element holds elements.
    Holds,
    // A text of this rule.
    Text(text::Rule),
}

// What an element of a message says.
#[derive(Clone, Copy)]
pub struct Event {
    // The part that the element plays: 0 for none. A number, since the definitions find elements by it (specs/Parts).
    pub part: usize,
    pub kind: Kind,
    // Where its `<` stands.
    pub place: usize,
    // Where its text (or the white space before its first child) starts, and how long that is.
    pub start: usize,
    pub length: usize,
}
