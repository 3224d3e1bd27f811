// Which lines an expression statement has: one, or those of a call with arguments.
ghost use Rattle.std.specs.Prelude.{◌≡◌, ◌<◌};
ghost use Rattle.words.specs.Table.{row_count};
ghost use Rattle.page_line.specs.Reads.{expression_shape_at, argument_at, Readable, OperationInside};
ghost use Rattle.page_printer.specs.Outlines.{called_outline, value_outline, operation_outline, express_outline};

use super::Outline;
use language_shapes::{ExpressionShape, OperationShape};
use page_line::LineAt;
use page_line::shapes_at::{argument_at, expression_at};
use words::table::number_at;

// A call, by the link to its arguments.
fn called_outline(
    rows: &[i32],
    expression: usize,
    place: usize,
    number: usize,
    link: usize,
) -> Outline
    requires { Readable rows.now × (link < row_count rows.now) }
    ensures { result ≡ called_outline rows.now expression place number link (argument_at rows.now link) }
{
    let first = argument_at(rows, link);
    match first {
        Some(row) => Outline::Called(
            LineAt::OpensCall(place, number),
            row,
            number_at(rows, link, 5),
        ),
        None => Outline::Single(LineAt::Express(expression)),
    }
}

// An assignment, by the row of its value.
fn value_outline(rows: &[i32], expression: usize, place: usize, value: usize) -> Outline
    requires { Readable rows.now × (value < row_count rows.now) }
    ensures { result ≡ value_outline rows.now expression place (expression_shape_at rows.now value) }
{
    let shape = expression_at(rows, value);
    match shape {
        ExpressionShape::Number(_) => Outline::Single(LineAt::Express(expression)),
        ExpressionShape::Read(_) => Outline::Single(LineAt::Express(expression)),
        ExpressionShape::Operation(_) => Outline::Single(LineAt::Express(expression)),
        ExpressionShape::Choice(_) => Outline::Single(LineAt::Express(expression)),
        ExpressionShape::Call(number, arguments) => {
            called_outline(rows, expression, place, number, arguments)
        }
    }
}

fn operation_outline(rows: &[i32], expression: usize, operation: OperationShape) -> Outline
    requires { Readable rows.now × OperationInside (row_count rows.now) operation }
    ensures { result ≡ operation_outline rows.now expression operation }
{
    match operation {
        OperationShape::Assign(place, value) => value_outline(rows, expression, place, value),
        OperationShape::Minus(_) => Outline::Single(LineAt::Express(expression)),
        OperationShape::Not(_) => Outline::Single(LineAt::Express(expression)),
        OperationShape::Binary(_, _, _) => Outline::Single(LineAt::Express(expression)),
        OperationShape::Comma(_, _) => Outline::Single(LineAt::Express(expression)),
        OperationShape::Compound(_, _, _) => Outline::Single(LineAt::Express(expression)),
        OperationShape::Prefix(_, _) => Outline::Single(LineAt::Express(expression)),
        OperationShape::Postfix(_, _) => Outline::Single(LineAt::Express(expression)),
    }
}

// The lines of an expression statement, by the row of its expression.
pub fn express_outline(rows: &[i32], expression: usize) -> Outline
    requires { Readable rows.now × (expression < row_count rows.now) }
    ensures { result ≡ express_outline rows.now expression }
{
    let shape = expression_at(rows, expression);
    match shape {
        ExpressionShape::Number(_) => Outline::Single(LineAt::Express(expression)),
        ExpressionShape::Read(_) => Outline::Single(LineAt::Express(expression)),
        ExpressionShape::Operation(operation) => operation_outline(rows, expression, operation),
        ExpressionShape::Choice(_) => Outline::Single(LineAt::Express(expression)),
        ExpressionShape::Call(_, _) => Outline::Single(LineAt::Express(expression)),
    }
}
