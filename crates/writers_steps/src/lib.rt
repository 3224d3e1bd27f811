// What an expression does with the values of its first two operands, written as kernel rows.
#![tactic(auto)]

pub mod atoms; // atoms.rt: kernel atoms and places, from the source rows
pub mod straight; // straight.rt: what an expression does with its operands' values

// What the writers read: the source rows, their measures, and the store word where the temporaries begin.
// `Writes` is no ghost field: it holds the layout that a run chooses, so it is more than a fact.
#[derive(Clone, Copy)]
pub struct WriteSource<'a> {
    pub rows: &'a [i32],
    pub table: &'a [usize],
    pub store: usize,
}

// Where the code of an expression stands: from the row `base` on, with its temporaries from a level on; whether anything stands behind it.
#[derive(Clone, Copy)]
pub struct WritePosition {
    pub level: usize,
    pub base: usize,
    pub follows: bool,
}
