// The table of kinds: the one place in the code that says what the fields of each kind hold.
ghost use Rattle.std.specs.Prelude.{◌≡◌, ◌+◌, ◌*◌, ◌<◌, length};
ghost use Rattle.words.specs.Kinds.{sort_of, sort_at, in_language};
ghost use Rattle.words.specs.Links.{is_expression, is_place, is_statement, is_arm, is_argument, link as link_of};
ghost use Rattle.check_grammar.specs.Grammar.{grammar, forms_of};

use super::{
    ARGUMENT, ARGUMENT_ROW, ARM, ARM_ROW, ARRAY, BODY, BODY_BLOCK, BOTH, DECLARED, EXPRESSION,
    FUNCTION, ITEM, KERNEL, KIND_LIMIT, LABEL, NEITHER, NO_ROW, NONE, OPERAND, OPTIONAL,
    OPTIONAL_BODY, PARAMETER, PLACE, PLACE_ROW, SOURCE, STATEMENT, VALUE, VARIABLE, is_link,
    source_has,
};
use words::Form;
use words::table::number_at;

// The table of kinds, a row for each number: what a row of the kind is, what a, b, c, d and next hold, and the forms that have the kind.
const KINDS: [[u8; 7]; KIND_LIMIT] = [
    [NO_ROW, NONE, NONE, NONE, NONE, NONE, NEITHER], // 0
    [EXPRESSION, VALUE, NONE, NONE, NONE, NONE, BOTH], // 1 constant
    [PLACE_ROW, VARIABLE, NONE, NONE, NONE, NONE, BOTH], // 2 variable
    [PLACE_ROW, ARRAY, OPERAND, NONE, NONE, NONE, BOTH], // 3 element
    [EXPRESSION, OPERAND, NONE, NONE, NONE, NONE, BOTH], // 4 minus
    [EXPRESSION, OPERAND, NONE, NONE, NONE, NONE, SOURCE], // 5 not
    [EXPRESSION, OPERAND, OPERAND, NONE, NONE, NONE, BOTH], // 6 +
    [EXPRESSION, OPERAND, OPERAND, NONE, NONE, NONE, BOTH], // 7 −
    [EXPRESSION, OPERAND, OPERAND, NONE, NONE, NONE, BOTH], // 8 ×
    [EXPRESSION, OPERAND, OPERAND, NONE, NONE, NONE, BOTH], // 9 /
    [EXPRESSION, OPERAND, OPERAND, NONE, NONE, NONE, BOTH], // 10 %
    [EXPRESSION, OPERAND, OPERAND, NONE, NONE, NONE, BOTH], // 11 <
    [EXPRESSION, OPERAND, OPERAND, NONE, NONE, NONE, BOTH], // 12 >
    [EXPRESSION, OPERAND, OPERAND, NONE, NONE, NONE, BOTH], // 13 <=
    [EXPRESSION, OPERAND, OPERAND, NONE, NONE, NONE, BOTH], // 14 >=
    [EXPRESSION, OPERAND, OPERAND, NONE, NONE, NONE, BOTH], // 15 ==
    [EXPRESSION, OPERAND, OPERAND, NONE, NONE, NONE, BOTH], // 16 !=
    [EXPRESSION, OPERAND, OPERAND, NONE, NONE, NONE, SOURCE], // 17 and
    [EXPRESSION, OPERAND, OPERAND, NONE, NONE, NONE, SOURCE], // 18 or
    [EXPRESSION, OPERAND, OPERAND, OPERAND, NONE, NONE, SOURCE], // 19 conditional
    [EXPRESSION, OPERAND, OPERAND, NONE, NONE, NONE, SOURCE], // 20 comma
    [EXPRESSION, PLACE, OPERAND, NONE, NONE, NONE, BOTH], // 21 assign
    [EXPRESSION, PLACE, OPERAND, NONE, NONE, NONE, SOURCE], // 22 +=
    [EXPRESSION, PLACE, OPERAND, NONE, NONE, NONE, SOURCE], // 23 −=
    [EXPRESSION, PLACE, OPERAND, NONE, NONE, NONE, SOURCE], // 24 ×=
    [EXPRESSION, PLACE, OPERAND, NONE, NONE, NONE, SOURCE], // 25 /=
    [EXPRESSION, PLACE, OPERAND, NONE, NONE, NONE, SOURCE], // 26 %=
    [EXPRESSION, PLACE, NONE, NONE, NONE, NONE, SOURCE], // 27 ++e
    [EXPRESSION, PLACE, NONE, NONE, NONE, NONE, SOURCE], // 28 −−e
    [EXPRESSION, PLACE, NONE, NONE, NONE, NONE, SOURCE], // 29 e++
    [EXPRESSION, PLACE, NONE, NONE, NONE, NONE, SOURCE], // 30 e−−
    [EXPRESSION, FUNCTION, ARGUMENT, NONE, NONE, NONE, BOTH], // 31 call
    [ARGUMENT_ROW, OPERAND, NONE, NONE, NONE, ARGUMENT, BOTH], // 32 argument
    [NO_ROW, NONE, NONE, NONE, NONE, NONE, NEITHER], // 33
    [NO_ROW, NONE, NONE, NONE, NONE, NONE, NEITHER], // 34
    [NO_ROW, NONE, NONE, NONE, NONE, NONE, NEITHER], // 35
    [NO_ROW, NONE, NONE, NONE, NONE, NONE, NEITHER], // 36
    [NO_ROW, NONE, NONE, NONE, NONE, NONE, NEITHER], // 37
    [NO_ROW, NONE, NONE, NONE, NONE, NONE, NEITHER], // 38
    [NO_ROW, NONE, NONE, NONE, NONE, NONE, NEITHER], // 39
    [STATEMENT, NONE, NONE, NONE, NONE, ITEM, BOTH], // 40 empty
    [STATEMENT, OPERAND, NONE, NONE, NONE, ITEM, BOTH], // 41 expression statement
    [STATEMENT, ITEM, NONE, NONE, NONE, ITEM, BOTH], // 42 block
    [STATEMENT, OPERAND, BODY, OPTIONAL_BODY, NONE, ITEM, BOTH], // 43 if
    [STATEMENT, OPERAND, BODY, NONE, NONE, ITEM, BOTH], // 44 while
    [STATEMENT, BODY, OPERAND, NONE, NONE, ITEM, SOURCE], // 45 do
    [STATEMENT, OPTIONAL, OPTIONAL, OPTIONAL, BODY, ITEM, SOURCE], // 46 for
    [STATEMENT, OPERAND, ITEM, NONE, NONE, ITEM, SOURCE], // 47 switch
    [STATEMENT, VALUE, NONE, NONE, NONE, ITEM, SOURCE], // 48 case
    [STATEMENT, NONE, NONE, NONE, NONE, ITEM, SOURCE], // 49 default
    [STATEMENT, NONE, NONE, NONE, NONE, ITEM, SOURCE], // 50 break
    [STATEMENT, NONE, NONE, NONE, NONE, ITEM, SOURCE], // 51 continue
    [STATEMENT, LABEL, NONE, NONE, NONE, ITEM, KERNEL], // 52 goto
    [STATEMENT, LABEL, NONE, NONE, NONE, ITEM, KERNEL], // 53 label
    [STATEMENT, ARM, NONE, NONE, NONE, ITEM, SOURCE], // 54 guarded if
    [STATEMENT, ARM, NONE, NONE, NONE, ITEM, SOURCE], // 55 guarded do
    [ARM_ROW, OPERAND, BODY_BLOCK, NONE, NONE, ARM, SOURCE], // 56 arm
    [STATEMENT, NONE, NONE, NONE, NONE, ITEM, KERNEL], // 57 abort
    [STATEMENT, DECLARED, OPERAND, NONE, NONE, ITEM, BOTH], // 58 declaration
    [STATEMENT, FUNCTION, PARAMETER, BODY_BLOCK, NONE, ITEM, BOTH], // 59 definition of a function
    [STATEMENT, OPTIONAL, NONE, NONE, NONE, ITEM, BOTH], // 60 return
];

// The table of kinds. A pass builds it once and lends it on: borrowed where it is read, the constant would be built anew at each look.
#[derive(Clone, Copy)]
pub struct KindTable {
    rows: [[u8; 7]; KIND_LIMIT],
    ghost is_grammar: { rows ≡ grammar },
}

impl KindTable {
    pub fn new() -> KindTable {
        KindTable { rows: KINDS }
    }

    // What a field of a kind holds; for field 0, what a row of the kind is.
    pub fn sort_of(&self, kind: usize, field: usize) -> u8
        requires { field < 6 }
        ensures { result ≡ sort_of kind field }
    {
        if kind < KIND_LIMIT {
            return self.rows[kind][field];
        }
        NONE
    }

    // The forms that have a kind.
    fn forms_of(&self, kind: usize) -> u8
        ensures { result ≡ forms_of kind }
    {
        if kind < KIND_LIMIT {
            return self.rows[kind][6];
        }
        NEITHER
    }

    pub fn sort_at(&self, rows: &[i32], row: usize, field: usize) -> u8
        requires { (6 * row < length rows.now) × (field < 6) }
        ensures { result ≡ sort_at rows.now row field }
    {
        self.sort_of(number_at(rows, row, 0), field)
    }

    // The kind is in the language of the form.
    pub fn in_language(&self, form: Form, kind: usize) -> bool
        ensures { result ≡ in_language form kind }
    {
        let forms = self.forms_of(kind);
        match form {
            Form::Source => source_has(forms),
            Form::Kernel => BOTH <= forms,
        }
    }

    pub fn is_expression(&self, rows: &[i32], row: usize) -> bool
        requires { 6 * row < length rows.now }
        ensures { result ≡ is_expression rows.now row }
    {
        let sort = self.sort_at(rows, row, 0);
        if EXPRESSION <= sort {
            return sort <= PLACE_ROW;
        }
        false
    }

    pub fn is_place(&self, rows: &[i32], row: usize) -> bool
        requires { 6 * row < length rows.now }
        ensures { result ≡ is_place rows.now row }
    {
        self.sort_at(rows, row, 0) == PLACE_ROW
    }

    pub fn is_statement(&self, rows: &[i32], row: usize) -> bool
        requires { 6 * row < length rows.now }
        ensures { result ≡ is_statement rows.now row }
    {
        self.sort_at(rows, row, 0) == STATEMENT
    }

    pub fn is_arm(&self, rows: &[i32], row: usize) -> bool
        requires { 6 * row < length rows.now }
        ensures { result ≡ is_arm rows.now row }
    {
        self.sort_at(rows, row, 0) == ARM_ROW
    }

    pub fn is_argument(&self, rows: &[i32], row: usize) -> bool
        requires { 6 * row < length rows.now }
        ensures { result ≡ is_argument rows.now row }
    {
        self.sort_at(rows, row, 0) == ARGUMENT_ROW
    }

    // The row that a field links, or 0. Most words of a table are 0, and need no look at the table of kinds.
    pub fn link(&self, rows: &[i32], row: usize, field: usize) -> usize
        requires { (6 * row + 5 < length rows.now) × (field < 6) }
        ensures { result ≡ link_of rows.now row field }
    {
        let number = number_at(rows, row, field);
        if number == 0 {
            return 0;
        }
        if is_link(self.sort_at(rows, row, field)) {
            return number;
        }
        0
    }
}
