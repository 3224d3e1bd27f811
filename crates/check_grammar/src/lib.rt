// How a table of kinds is read: the names of its sorts, and what a row's number says of its fields; and the search for a row.
#![tactic(auto)]

pub mod kinds; // kinds.rt: the table of kinds
pub mod search; // search.rt: the lowest row with a property

ghost use Rattle.std.specs.Prelude.{◌≡◌, ◌*◌, ◌<◌, length};
ghost use Rattle.words.specs.Kinds.{between as between_of, is_link, is_required};
ghost use Rattle.words.specs.Links.{is_block};

use words::table::number_at;

// Fields without a link. "Values, variable, array and label numbers may be 0."
pub const NONE: u8 = 0;

pub const VALUE: u8 = 1;

pub const VARIABLE: u8 = 2;

pub const ARRAY: u8 = 3;

pub const LABEL: u8 = 4;

pub const DECLARED: u8 = 5;

pub const FUNCTION: u8 = 6;
// Links. Optional ones "may be 0": an operand is an expression; a body is "a branch or body", whose next is 0, and the body of an arm or of a
// function is a block; an item is the first of a list, or the next, and may be 0; so are arms, arguments and parameters, in lists of theirs;
// an absent link must be 0.
pub const OPERAND: u8 = 7;

pub const OPTIONAL: u8 = 8;

pub const PLACE: u8 = 9;

pub const BODY: u8 = 10;

pub const OPTIONAL_BODY: u8 = 11;

pub const ITEM: u8 = 12;

pub const BODY_BLOCK: u8 = 13;

pub const ARM: u8 = 14;

pub const ARGUMENT: u8 = 15;

pub const PARAMETER: u8 = 16;

pub const ABSENT: u8 = 17;
// What a row is.
pub const NO_ROW: u8 = 0;

pub const EXPRESSION: u8 = 18;

pub const PLACE_ROW: u8 = 19;

pub const STATEMENT: u8 = 20;

pub const ARM_ROW: u8 = 21;

pub const ARGUMENT_ROW: u8 = 22;
// The forms that have a kind.
pub const NEITHER: u8 = 0;

pub const SOURCE: u8 = 1;

pub const BOTH: u8 = 2;

pub const KERNEL: u8 = 3;

// No kind has this number or a higher one.
pub const KIND_LIMIT: usize = 61;

pub fn between(least: usize, most: usize, number: usize) -> bool
    ensures { result ≡ between_of least most number }
{
    if least <= number {
        return number <= most;
    }
    false
}

// The source is among these forms.
fn source_has(forms: u8) -> bool
    ensures { result ≡ between_of 1 2 forms }
{
    if SOURCE <= forms {
        return forms <= BOTH;
    }
    false
}

pub fn is_block(rows: &[i32], row: usize) -> bool
    requires { 6 * row < length rows.now }
    ensures { result ≡ is_block rows.now row }
{
    number_at(rows, row, 0) == 42
}

pub fn is_link(sort: u8) -> bool
    ensures { result ≡ is_link sort }
{
    if OPERAND <= sort {
        return sort <= ABSENT;
    }
    false
}

// A link that must not be absent.
pub fn is_required(sort: u8) -> bool
    ensures { result ≡ is_required sort }
{
    if sort == OPERAND {
        return true;
    }
    if sort == PLACE {
        return true;
    }
    if sort == BODY {
        return true;
    }
    sort == BODY_BLOCK
}
