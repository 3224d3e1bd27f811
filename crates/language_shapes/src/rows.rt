// What stands at a row. A row of another group counts as the constant 0, as an empty statement, as a statement among the items, and ends
// the arms and the arguments.
ghost use Rattle.std.specs.Prelude.{◌≡◌, ◌+◌, ◌*◌, ◌<◌, length};
ghost use Rattle.words.specs.Table.{row_count, number_at};
ghost use Rattle.language_shapes.specs.Source.{Source, PlaceAt, ExpressionAt, StatementAt};
ghost use Rattle.language_shapes.specs.Shapes.{shape_at, expression_in, place_in, statement_in, item_in, arm_in, argument_in, ItemAt, ArmAt, ArgumentAt};

use super::kinds::{definition_shape, expression_shape, mark_shape, member_shape, statement_shape};
use super::{ExpressionShape, Item, PlaceShape, Shape, StatementShape};
use words::Kind;
use words_kinds::kind_at;

pub fn shape_at(rows: &[i32], row: usize) -> Shape
    requires { 6 * row + 5 < length rows.now }
    ensures { result ≡ shape_at rows.now row }
{
    let kind = kind_at(rows, row);
    match kind {
        Kind::OfExpression(kind) => Shape::OfExpression(expression_shape(rows, row, kind)),
        Kind::OfStatement(kind) => Shape::OfStatement(statement_shape(rows, row, kind)),
        Kind::OfMark(kind) => Shape::OfMark(mark_shape(rows, row, kind)),
        Kind::OfMember(kind) => member_shape(rows, row, kind),
        Kind::Definition => definition_shape(rows, row),
        Kind::Other => Shape::Other,
    }
}

fn expression_of(shape: Shape) -> ExpressionShape
    ensures { result ≡ expression_in shape }
{
    match shape {
        Shape::OfExpression(expression) => expression,
        _ => ExpressionShape::Number(0),
    }
}

// A row that is no place counts as variable 0.
fn place_of(expression: ExpressionShape) -> PlaceShape
    ensures { result ≡ place_in expression }
{
    match expression {
        ExpressionShape::Read(place) => place,
        _ => PlaceShape::Variable(0),
    }
}

fn statement_of(shape: Shape) -> StatementShape
    ensures { result ≡ statement_in shape }
{
    match shape {
        Shape::OfStatement(statement) => statement,
        _ => StatementShape::Empty,
    }
}

fn item_of(shape: Shape) -> Item
    ensures { result ≡ item_in shape }
{
    match shape {
        Shape::OfMark(mark) => Item::Mark(mark),
        Shape::OfDefinition(number, parameters, body) => Item::Definition(number, parameters, body),
        _ => Item::Statement,
    }
}

fn arm_of(shape: Shape) -> Option<(usize, usize)>
    ensures { result ≡ arm_in shape }
{
    match shape {
        Shape::OfArm(guard, body) => Some((guard, body)),
        _ => None,
    }
}

fn argument_of(shape: Shape) -> Option<usize>
    ensures { result ≡ argument_in shape }
{
    match shape {
        Shape::OfArgument(expression) => Some(expression),
        _ => None,
    }
}

pub fn expression_at(rows: &[i32], row: usize) -> ExpressionShape
    requires { Source rows.now × (row < row_count rows.now) }
    ensures { ExpressionAt rows.now row result }
{
    expression_of(shape_at(rows, row))
}

pub fn place_at(rows: &[i32], row: usize) -> PlaceShape
    requires { Source rows.now × (row < row_count rows.now) }
    ensures { PlaceAt rows.now row result }
{
    place_of(expression_at(rows, row))
}

pub fn statement_at(rows: &[i32], row: usize) -> StatementShape
    requires { Source rows.now × (row < row_count rows.now) }
    ensures { StatementAt rows.now row result }
{
    statement_of(shape_at(rows, row))
}

pub fn item_at(rows: &[i32], row: usize) -> Item
    requires { Source rows.now × (row < row_count rows.now) }
    ensures { ItemAt rows.now row (number_at rows.now row 5) result }
{
    item_of(shape_at(rows, row))
}

pub fn arm_at(rows: &[i32], row: usize) -> Option<(usize, usize)>
    requires { Source rows.now × (row < row_count rows.now) }
    ensures { ArmAt rows.now row (number_at rows.now row 5) result }
{
    arm_of(shape_at(rows, row))
}

pub fn argument_at(rows: &[i32], row: usize) -> Option<usize>
    requires { Source rows.now × (row < row_count rows.now) }
    ensures { ArgumentAt rows.now row (number_at rows.now row 5) result }
{
    argument_of(shape_at(rows, row))
}
