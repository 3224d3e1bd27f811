// The table of measures: its words, the records that fill them, and what goes by the use of a value.
#![tactic(auto)]

use translation::Use;

pub mod table; // table.rt: the words of the table of measures
pub mod uses; // uses.rt: what goes by the use of a value

// The words of a row in the table of measures, and where each measure stands among them: of the row as an expression, as a statement,
// of the list from it on, and of the arms from it on.
pub const WIDTH: usize = 19;

pub const ROWS: usize = 0;

pub const LEVELS: usize = 1;

pub const VALUE: usize = 2;

pub const STATEMENT_ROWS: usize = 3;

pub const STATEMENT_LEVELS: usize = 4;

pub const STATEMENT_LABELS: usize = 5;

pub const LIST_ROWS: usize = 6;

pub const LIST_LEVELS: usize = 7;

pub const LIST_LABELS: usize = 8;

pub const LIST_CASES: usize = 9;

pub const LIST_DEFAULT: usize = 10;

pub const COPIED: usize = 11;

pub const DROPPED_ROWS: usize = 12;

pub const DROPPED_LEVELS: usize = 13;

pub const STORED_LEVELS: usize = 14;

pub const ARMS_ROWS: usize = 15;

pub const ARMS_LEVELS: usize = 16;

pub const ARMS_LABELS: usize = 17;

pub const COPIES: usize = 18;

// What an expression's own row brings: the rows of its operands, of which 0 is absent, the first two worked out before all else, the
// second `above` levels above the first, the others in branches; the use of the first one's value, and whether the second one's is used as
// the expression's is; the kernel rows and the levels of its own code, where the value is wanted, dropped, and stored in a variable, which
// takes the rows of a wanted one; and the row that its value comes from.
#[derive(Clone, Copy)]
pub struct Own {
    pub first: usize,
    pub second: usize,
    pub third: usize,
    pub fourth: usize,
    pub first_use: Use,
    pub passes: bool,
    pub above: usize,
    pub rows: usize,
    pub levels: usize,
    pub dropped_rows: usize,
    pub dropped_levels: usize,
    pub stored_levels: usize,
    pub value: usize,
}

// What a place's row brings: the row of its index, 0 for a variable; the rows of an index, 1 or 0; the levels of an update.
#[derive(Clone, Copy)]
pub struct PlaceOwn {
    pub index: usize,
    pub rows: usize,
    pub levels: usize,
}

// What holds a value: the number itself, a variable, or the temporary of its level.
#[derive(Clone, Copy)]
pub enum Holder {
    Number(i32),
    Variable(usize),
    Temporary,
}

// The measures of an expression: kernel rows, levels, the row that its value comes from, and 1 where the value of its first operand is
// copied, because the second one can write it, else 0; rows and levels where its value is dropped, and levels where it is stored; and of a
// call which arguments are copied, as the binary digits of a number, the first argument's lowest.
#[derive(Clone, Copy)]
pub struct ExpressionMeasures {
    pub rows: usize,
    pub levels: usize,
    pub value: usize,
    pub copied: usize,
    pub dropped_rows: usize,
    pub dropped_levels: usize,
    pub stored_levels: usize,
    pub copies: usize,
}

// The measures of a call's arguments from one on: kernel rows, levels, the temporaries that they take, their number, and which are copied, as
// binary digits.
#[derive(Clone, Copy)]
pub struct Passed {
    pub rows: usize,
    pub levels: usize,
    pub taken: usize,
    pub count: usize,
    pub copies: usize,
}

// The measures of a statement, and of the arms from an arm on: kernel rows, levels, labels.
#[derive(Clone, Copy)]
pub struct StatementMeasures {
    pub rows: usize,
    pub levels: usize,
    pub labels: usize,
}

// The measures of a list from an item on: also its cases, and 1 + the labels before its default, 0 where it has none.
#[derive(Clone, Copy)]
pub struct ListMeasures {
    pub rows: usize,
    pub levels: usize,
    pub labels: usize,
    pub cases: usize,
    pub default: usize,
}
