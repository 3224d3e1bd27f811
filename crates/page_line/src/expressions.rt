// Atoms, places and values, told by their row. Each function lays the bytes of its definition; what the kernel does not have has none.
ghost use Rattle.std.specs.Prelude.{◌≡◌, ◌∷◌, [], ◌+◌, ◌≤◌, ◌<◌, length};
ghost use Rattle.words.specs.Table.{row_count};
ghost use Rattle.text_numbers.specs.Number.{number_bytes};
ghost use Rattle.language.specs.Trees.{minus, binary, assign, element, no_more};
ghost use Rattle.language.specs.Decode.{expression_at, place_of, argument_list_at};
ghost use Rattle.language_shapes.specs.Shapes.{place_tree, operation_tree};
ghost use Rattle.page.specs.Page.{blank, semicolon, ended_by, operator_word, atom_word, place_word, ended, value_words, assignment_words, parted};
ghost use Rattle.page_line.specs.Laid.{Laid};
ghost use Rattle.page_line.specs.Reads.{Readable, PlaceInside, OperationInside};
ghost use Rattle.page_line.specs.Contents.{led, called_bytes, operator_byte, is_two_bytes};

use super::bytes::{lay_byte, lay_bytes, lay_constant, lay_lettered, lay_name};
use super::shapes_at::{argument_at, expression_at, place_at};
use language_shapes::{ExpressionShape, OperationShape, PlaceShape};
use page::Sizes;
use words::Operator;

pub fn lay_atom(sizes: Sizes, rows: &[i32], row: usize, at: usize, text: &mut [u8]) -> usize
    requires readable { Readable rows.now × (row < row_count rows.now) }
    requires row_in_bounds { at + length (atom_word sizes (expression_at rows.now row)) ≤ length text.old }
    ensures { Laid (atom_word sizes (expression_at rows.now row)) text.old at result text.new }
{
    let shape = expression_at(rows, row);
    match shape {
        ExpressionShape::Number(value) => lay_constant(value, at, text),
        ExpressionShape::Read(place) => match place {
            PlaceShape::Variable(number) => lay_name(sizes, number, at, text),
            PlaceShape::Element(_, _) => at,
        },
        ExpressionShape::Operation(_) => at,
        ExpressionShape::Choice(_) => at,
        ExpressionShape::Call(_, _) => at,
    }
}

// `a7[X]`
fn lay_element(
    sizes: Sizes,
    rows: &[i32],
    array: usize,
    index: usize,
    at: usize,
    text: &mut [u8],
) -> usize
    requires readable { Readable rows.now × (index < row_count rows.now) }
    requires index_in_bounds { at + length (place_word sizes (element array (expression_at rows.now index))) ≤ length text.old }
    ensures { Laid (place_word sizes (element array (expression_at rows.now index))) text.old at result text.new }
{
    let named = lay_lettered(b'a', array, at, text);
    let opened = lay_byte(b'[', named, text);
    let indexed = lay_atom(sizes, rows, index, opened, text);
    lay_byte(b']', indexed, text)
}

// A place, as it is read.
pub fn lay_read(sizes: Sizes, rows: &[i32], place: PlaceShape, at: usize, text: &mut [u8]) -> usize
    requires readable { Readable rows.now × PlaceInside (row_count rows.now) place }
    requires place_in_bounds { at + length (place_word sizes (place_tree rows.now place)) ≤ length text.old }
    ensures { Laid (place_word sizes (place_tree rows.now place)) text.old at result text.new }
{
    match place {
        PlaceShape::Variable(number) => lay_name(sizes, number, at, text),
        PlaceShape::Element(array, index) => lay_element(sizes, rows, array, index, at, text),
    }
}

// The first byte of an operator, and whether there is another, which then is `=`.
fn operator_byte(operator: Operator) -> u8
    ensures { result ≡ operator_byte operator }
{
    match operator {
        Operator::Add => b'+',
        Operator::Subtract => b'-',
        Operator::Multiply => b'*',
        Operator::Divide => b'/',
        Operator::Remainder => b'%',
        Operator::Less => b'<',
        Operator::Greater => b'>',
        Operator::LessOrEqual => b'<',
        Operator::GreaterOrEqual => b'>',
        Operator::Equal => b'=',
        Operator::NotEqual => b'!',
    }
}

fn is_two_bytes(operator: Operator) -> bool
    ensures { result ≡ is_two_bytes operator }
{
    match operator {
        Operator::Add => false,
        Operator::Subtract => false,
        Operator::Multiply => false,
        Operator::Divide => false,
        Operator::Remainder => false,
        Operator::Less => false,
        Operator::Greater => false,
        Operator::LessOrEqual => true,
        Operator::GreaterOrEqual => true,
        Operator::Equal => true,
        Operator::NotEqual => true,
    }
}

fn lay_operator(operator: Operator, at: usize, text: &mut [u8]) -> usize
    requires { at + length (operator_word operator) ≤ length text.old }
    ensures { Laid (operator_word operator) text.old at result text.new }
{
    let two = is_two_bytes(operator);
    let first = lay_byte(operator_byte(operator), at, text);
    if two {
        return lay_byte(b'=', first, text);
    }
    first
}

// ` X op Y;`
fn lay_binary(
    sizes: Sizes,
    rows: &[i32],
    operator: Operator,
    left: usize,
    right: usize,
    at: usize,
    text: &mut [u8],
) -> usize
    requires readable { Readable rows.now × (left < row_count rows.now) × (right < row_count rows.now) }
    requires right_in_bounds { at + length (led (ended (value_words sizes (binary operator (expression_at rows.now left) (expression_at rows.now right))))) ≤ length text.old }
    ensures { Laid (led (ended (value_words sizes (binary operator (expression_at rows.now left) (expression_at rows.now right))))) text.old at result text.new }
{
    let start = lay_byte(b' ', at, text);
    let first = lay_atom(sizes, rows, left, start, text);
    let parted = lay_byte(b' ', first, text);
    let operated = lay_operator(operator, parted, text);
    let behind = lay_byte(b' ', operated, text);
    let second = lay_atom(sizes, rows, right, behind, text);
    lay_byte(b';', second, text)
}

// ` - X;`
fn lay_minus(sizes: Sizes, rows: &[i32], operand: usize, at: usize, text: &mut [u8]) -> usize
    requires readable { Readable rows.now × (operand < row_count rows.now) }
    requires operand_in_bounds { at + length (led (ended (value_words sizes (minus (expression_at rows.now operand))))) ≤ length text.old }
    ensures { Laid (led (ended (value_words sizes (minus (expression_at rows.now operand))))) text.old at result text.new }
{
    let start = lay_bytes(b" - ", at, text);
    let end = lay_atom(sizes, rows, operand, start, text);
    lay_byte(b';', end, text)
}

fn lay_operation(
    sizes: Sizes,
    rows: &[i32],
    operation: OperationShape,
    at: usize,
    text: &mut [u8],
) -> usize
    requires readable { Readable rows.now × OperationInside (row_count rows.now) operation }
    requires operation_in_bounds { at + length (led (ended (value_words sizes (operation_tree rows.now operation)))) ≤ length text.old }
    ensures { Laid (led (ended (value_words sizes (operation_tree rows.now operation)))) text.old at result text.new }
{
    match operation {
        OperationShape::Minus(operand) => lay_minus(sizes, rows, operand, at, text),
        OperationShape::Binary(operator, left, right) => {
            lay_binary(sizes, rows, operator, left, right, at, text)
        }
        OperationShape::Not(_) => at,
        OperationShape::Comma(_, _) => at,
        OperationShape::Assign(_, _) => at,
        OperationShape::Compound(_, _, _) => at,
        OperationShape::Prefix(_, _) => at,
        OperationShape::Postfix(_, _) => at,
    }
}

// ` X;` of a constant.
fn lay_constant_value(value: i32, at: usize, text: &mut [u8]) -> usize
    requires { at + length (blank ∷ ended_by semicolon (number_bytes value)) ≤ length text.old }
    ensures { Laid (blank ∷ ended_by semicolon (number_bytes value)) text.old at result text.new }
{
    let start = lay_byte(b' ', at, text);
    let end = lay_constant(value, start, text);
    lay_byte(b';', end, text)
}

// ` P;` of a place.
fn lay_read_value(
    sizes: Sizes,
    rows: &[i32],
    place: PlaceShape,
    at: usize,
    text: &mut [u8],
) -> usize
    requires readable { Readable rows.now × PlaceInside (row_count rows.now) place }
    requires place_in_bounds { at + length (blank ∷ ended_by semicolon (place_word sizes (place_tree rows.now place))) ≤ length text.old }
    ensures { Laid (blank ∷ ended_by semicolon (place_word sizes (place_tree rows.now place))) text.old at result text.new }
{
    let start = lay_byte(b' ', at, text);
    let end = lay_read(sizes, rows, place, start, text);
    lay_byte(b';', end, text)
}

// ` fN();`
fn lay_alone(number: usize, at: usize, text: &mut [u8]) -> usize
    requires { at + length (called_bytes number no_more) ≤ length text.old }
    ensures { Laid (called_bytes number no_more) text.old at result text.new }
{
    let start = lay_byte(b' ', at, text);
    let named = lay_lettered(b'f', number, start, text);
    lay_bytes(b"();", named, text)
}

// A call; one with arguments has lines of its own.
fn lay_called(rows: &[i32], number: usize, arguments: usize, at: usize, text: &mut [u8]) -> usize
    requires readable { Readable rows.now × (arguments < row_count rows.now) }
    requires arguments_in_bounds { at + length (called_bytes number (argument_list_at rows.now arguments)) ≤ length text.old }
    ensures { Laid (called_bytes number (argument_list_at rows.now arguments)) text.old at result text.new }
{
    let first = argument_at(rows, arguments);
    match first {
        Some(_) => at,
        None => lay_alone(number, at, text),
    }
}

// What is assigned, with the blank before it and the semicolon behind it.
fn lay_value(sizes: Sizes, rows: &[i32], row: usize, at: usize, text: &mut [u8]) -> usize
    requires readable { Readable rows.now × (row < row_count rows.now) }
    requires row_in_bounds { at + length (led (ended (value_words sizes (expression_at rows.now row)))) ≤ length text.old }
    ensures { Laid (led (ended (value_words sizes (expression_at rows.now row)))) text.old at result text.new }
{
    let shape = expression_at(rows, row);
    match shape {
        ExpressionShape::Number(value) => lay_constant_value(value, at, text),
        ExpressionShape::Read(place) => lay_read_value(sizes, rows, place, at, text),
        ExpressionShape::Operation(operation) => lay_operation(sizes, rows, operation, at, text),
        ExpressionShape::Choice(_) => at,
        ExpressionShape::Call(number, arguments) => {
            lay_called(rows, number, arguments, at, text)
        }
    }
}

// `P = X;`
fn lay_stored(
    sizes: Sizes,
    rows: &[i32],
    place: usize,
    value: usize,
    at: usize,
    text: &mut [u8],
) -> usize
    requires readable { Readable rows.now × (place < row_count rows.now) × (value < row_count rows.now) }
    requires value_in_bounds { at + length (parted (assignment_words sizes (assign (place_of (expression_at rows.now place)) (expression_at rows.now value)))) ≤ length text.old }
    ensures { Laid (parted (assignment_words sizes (assign (place_of (expression_at rows.now place)) (expression_at rows.now value)))) text.old at result text.new }
{
    let named = lay_read(sizes, rows, place_at(rows, place), at, text);
    let equals = lay_bytes(b" =", named, text);
    lay_value(sizes, rows, value, equals, text)
}

// An operation as a statement.
fn lay_operated(
    sizes: Sizes,
    rows: &[i32],
    operation: OperationShape,
    at: usize,
    text: &mut [u8],
) -> usize
    requires readable { Readable rows.now × OperationInside (row_count rows.now) operation }
    requires operation_in_bounds { at + length (parted (assignment_words sizes (operation_tree rows.now operation))) ≤ length text.old }
    ensures { Laid (parted (assignment_words sizes (operation_tree rows.now operation))) text.old at result text.new }
{
    match operation {
        OperationShape::Assign(place, value) => lay_stored(sizes, rows, place, value, at, text),
        OperationShape::Minus(_) => at,
        OperationShape::Not(_) => at,
        OperationShape::Binary(_, _, _) => at,
        OperationShape::Comma(_, _) => at,
        OperationShape::Compound(_, _, _) => at,
        OperationShape::Prefix(_, _) => at,
        OperationShape::Postfix(_, _) => at,
    }
}

// An expression statement's line.
pub fn lay_assignment(sizes: Sizes, rows: &[i32], row: usize, at: usize, text: &mut [u8]) -> usize
    requires readable { Readable rows.now × (row < row_count rows.now) }
    requires row_in_bounds { at + length (parted (assignment_words sizes (expression_at rows.now row))) ≤ length text.old }
    ensures { Laid (parted (assignment_words sizes (expression_at rows.now row))) text.old at result text.new }
{
    let shape = expression_at(rows, row);
    match shape {
        ExpressionShape::Number(_) => at,
        ExpressionShape::Read(_) => at,
        ExpressionShape::Operation(operation) => lay_operated(sizes, rows, operation, at, text),
        ExpressionShape::Choice(_) => at,
        ExpressionShape::Call(_, _) => at,
    }
}
