// The causes that lie in one field of a row: 3, 4 and 6.
#![tactic(auto)]

pub mod fields; // fields.rt: the causes that lie in one field of a row: 3, 4 and 6

// The numbers from `first` on that are below `past`.
#[derive(Clone, Copy)]
pub struct NumberRange {
    pub first: usize,
    pub past: usize,
}

// The numbers that a header gives to its program: variables 0 to V-1, so many arrays, declared words and temporaries S to S+D+T-1; and those
// that a declaration or a parameter may have.
#[derive(Clone, Copy)]
pub struct Bounds {
    pub variables: usize,
    pub arrays: usize,
    pub store: usize,
    pub words: usize,
    pub declared: NumberRange,
}
