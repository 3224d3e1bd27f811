// What stands at a row of a table of either form. The readers of crate language_shapes ask for a source table; these ask for sound links alone.
ghost use Rattle.std.specs.Prelude.{◌≡◌, ◌<◌};
ghost use Rattle.words.specs.Table.{row_count};
ghost use Rattle.language_shapes.specs.Shapes.{expression_in, place_in, argument_in};
ghost use Rattle.page_line.specs.Reads.{expression_shape_at, argument_at, Readable, ExpressionRead, PlaceRead, ArgumentRead};

use language_shapes::rows::shape_at;
use language_shapes::{ExpressionShape, PlaceShape, Shape};

fn expression_of(shape: Shape) -> ExpressionShape
    ensures { result ≡ expression_in shape }
{
    match shape {
        Shape::OfExpression(expression) => expression,
        Shape::OfStatement(_) => ExpressionShape::Number(0),
        Shape::OfMark(_) => ExpressionShape::Number(0),
        Shape::OfArm(_, _) => ExpressionShape::Number(0),
        Shape::OfArgument(_) => ExpressionShape::Number(0),
        Shape::OfDefinition(_, _, _) => ExpressionShape::Number(0),
        Shape::Other => ExpressionShape::Number(0),
    }
}

fn place_of(expression: ExpressionShape) -> PlaceShape
    ensures { result ≡ place_in expression }
{
    match expression {
        ExpressionShape::Number(_) => PlaceShape::Variable(0),
        ExpressionShape::Read(place) => place,
        ExpressionShape::Operation(_) => PlaceShape::Variable(0),
        ExpressionShape::Choice(_) => PlaceShape::Variable(0),
        ExpressionShape::Call(_, _) => PlaceShape::Variable(0),
    }
}

fn argument_of(shape: Shape) -> Option<usize>
    ensures { result ≡ argument_in shape }
{
    match shape {
        Shape::OfExpression(_) => None,
        Shape::OfStatement(_) => None,
        Shape::OfMark(_) => None,
        Shape::OfArm(_, _) => None,
        Shape::OfArgument(expression) => Some(expression),
        Shape::OfDefinition(_, _, _) => None,
        Shape::Other => None,
    }
}

pub fn expression_at(rows: &[i32], row: usize) -> ExpressionShape
    requires { Readable rows.now × (row < row_count rows.now) }
    ensures { ExpressionRead rows.now row result × (result ≡ expression_shape_at rows.now row) }
{
    expression_of(shape_at(rows, row))
}

pub fn place_at(rows: &[i32], row: usize) -> PlaceShape
    requires { Readable rows.now × (row < row_count rows.now) }
    ensures { PlaceRead rows.now row result }
{
    place_of(expression_at(rows, row))
}

// The argument that a link leads to; 0 leads to none.
pub fn argument_at(rows: &[i32], link: usize) -> Option<usize>
    requires { Readable rows.now × (link < row_count rows.now) }
    ensures { ArgumentRead rows.now link result × (result ≡ argument_at rows.now link) }
{
    if link == 0 {
        return None;
    }
    argument_of(shape_at(rows, link))
}
