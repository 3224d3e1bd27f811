// Which lines an item has of its own, and where a block's list begins.
ghost use Rattle.std.specs.Prelude.{◌≡◌, ◌+◌, ◌*◌, ◌<◌, length};
ghost use Rattle.words.specs.Table.{row_count};
ghost use Rattle.page_line.specs.Reads.{Readable};
ghost use Rattle.page_printer.specs.Outlines.{if_outline, statement_outline, outline_at, list_of, block_list, ExpressInside};

use super::Outline;
use super::assignments::express_outline;
use language_shapes::rows::shape_at;
use language_shapes::{Shape, StatementShape};
use page_line::LineAt;

fn if_outline(test: usize, first: usize, second: usize) -> Outline
    ensures { result ≡ if_outline test first second }
{
    if second == 0 {
        return Outline::Nothing;
    }
    Outline::Split(LineAt::If(test), first, second)
}

fn statement_outline(rows: &[i32], row: usize, statement: StatementShape) -> Outline
    requires { Readable rows.now × ExpressInside (row_count rows.now) statement }
    ensures { result ≡ statement_outline rows.now row statement }
{
    match statement {
        StatementShape::Empty => Outline::Single(LineAt::Empty),
        StatementShape::Express(expression) => express_outline(rows, expression),
        StatementShape::Block(_) => Outline::Enclosed(LineAt::Opens, row),
        StatementShape::If(test, first, second) => if_outline(test, first, second),
        StatementShape::While(test, body) => Outline::Enclosed(LineAt::While(test), body),
        StatementShape::Do(_, _) => Outline::Nothing,
        StatementShape::For(_, _, _, _) => Outline::Nothing,
        StatementShape::Switch(_, _) => Outline::Nothing,
        StatementShape::Break => Outline::Nothing,
        StatementShape::Continue => Outline::Nothing,
        StatementShape::Goto(number) => Outline::Single(LineAt::Goto(number)),
        StatementShape::GuardedIf(_) => Outline::Nothing,
        StatementShape::GuardedDo(_) => Outline::Nothing,
        StatementShape::Abort => Outline::Single(LineAt::Abort),
        StatementShape::Declare(_, _) => Outline::Nothing,
        StatementShape::Return(value) => Outline::Single(LineAt::Return(value)),
    }
}

// The lines of the item at a row. A row that is no item counts as an empty statement.
pub fn outline_at(rows: &[i32], row: usize) -> Outline
    requires { Readable rows.now × (row < row_count rows.now) }
    ensures { result ≡ outline_at rows.now row }
{
    let shape = shape_at(rows, row);
    match shape {
        Shape::OfExpression(_) => Outline::Single(LineAt::Empty),
        Shape::OfStatement(statement) => statement_outline(rows, row, statement),
        Shape::OfMark(mark) => Outline::Single(LineAt::Mark(mark)),
        Shape::OfArm(_, _) => Outline::Single(LineAt::Empty),
        Shape::OfArgument(_) => Outline::Single(LineAt::Empty),
        Shape::OfDefinition(number, parameters, body) => {
            Outline::Defined(number, parameters, body)
        }
        Shape::Other => Outline::Single(LineAt::Empty),
    }
}

fn list_of(statement: StatementShape) -> usize
    ensures { result ≡ list_of statement }
{
    match statement {
        StatementShape::Empty => 0,
        StatementShape::Express(_) => 0,
        StatementShape::Block(list) => list,
        StatementShape::If(_, _, _) => 0,
        StatementShape::While(_, _) => 0,
        StatementShape::Do(_, _) => 0,
        StatementShape::For(_, _, _, _) => 0,
        StatementShape::Switch(_, _) => 0,
        StatementShape::Break => 0,
        StatementShape::Continue => 0,
        StatementShape::Goto(_) => 0,
        StatementShape::GuardedIf(_) => 0,
        StatementShape::GuardedDo(_) => 0,
        StatementShape::Abort => 0,
        StatementShape::Declare(_, _) => 0,
        StatementShape::Return(_) => 0,
    }
}

// The first item of the block at a row, or 0.
pub fn block_list(rows: &[i32], row: usize) -> usize
    requires { 6 * row + 5 < length rows.now }
    ensures { result ≡ block_list rows.now row }
{
    let shape = shape_at(rows, row);
    match shape {
        Shape::OfExpression(_) => 0,
        Shape::OfStatement(statement) => list_of(statement),
        Shape::OfMark(_) => 0,
        Shape::OfArm(_, _) => 0,
        Shape::OfArgument(_) => 0,
        Shape::OfDefinition(_, _, _) => 0,
        Shape::Other => 0,
    }
}
