// The shape of a row of a kind: what its fields are, by the table of kinds.
ghost use Rattle.std.specs.Prelude.{◌≡◌, ◌+◌, ◌*◌, ◌<◌, length};
ghost use Rattle.language_shapes.specs.Shapes.{expression_as, statement_as, mark_as, definition_as, member_as};

use super::{
    ChoiceShape, ExpressionShape, MarkShape, OperationShape, PlaceShape, Shape, StatementShape,
};
use words::table::{number_at, word_at};
use words::{ExpressionKind, MarkKind, MemberKind, StatementKind};

pub fn expression_shape(rows: &[i32], row: usize, kind: ExpressionKind) -> ExpressionShape
    requires { 6 * row + 5 < length rows.now }
    ensures { result ≡ expression_as rows.now row kind }
{
    let a = number_at(rows, row, 1);
    let b = number_at(rows, row, 2);
    let c = number_at(rows, row, 3);
    match kind {
        ExpressionKind::Constant => ExpressionShape::Number(word_at(rows, row, 1)),
        ExpressionKind::Variable => ExpressionShape::Read(PlaceShape::Variable(a)),
        ExpressionKind::Element => ExpressionShape::Read(PlaceShape::Element(a, b)),
        ExpressionKind::Minus => ExpressionShape::Operation(OperationShape::Minus(a)),
        ExpressionKind::Not => ExpressionShape::Operation(OperationShape::Not(a)),
        ExpressionKind::Binary(operator) => {
            ExpressionShape::Operation(OperationShape::Binary(operator, a, b))
        }
        ExpressionKind::And => ExpressionShape::Choice(ChoiceShape::And(a, b)),
        ExpressionKind::Or => ExpressionShape::Choice(ChoiceShape::Or(a, b)),
        ExpressionKind::Conditional => ExpressionShape::Choice(ChoiceShape::Conditional(a, b, c)),
        ExpressionKind::Comma => ExpressionShape::Operation(OperationShape::Comma(a, b)),
        ExpressionKind::Assign => ExpressionShape::Operation(OperationShape::Assign(a, b)),
        ExpressionKind::Compound(operator) => {
            ExpressionShape::Operation(OperationShape::Compound(operator, a, b))
        }
        ExpressionKind::Prefix(operator) => {
            ExpressionShape::Operation(OperationShape::Prefix(operator, a))
        }
        ExpressionKind::Postfix(operator) => {
            ExpressionShape::Operation(OperationShape::Postfix(operator, a))
        }
        ExpressionKind::Call => ExpressionShape::Call(a, b),
    }
}

pub fn statement_shape(rows: &[i32], row: usize, kind: StatementKind) -> StatementShape
    requires { 6 * row + 5 < length rows.now }
    ensures { result ≡ statement_as rows.now row kind }
{
    let a = number_at(rows, row, 1);
    let b = number_at(rows, row, 2);
    let c = number_at(rows, row, 3);
    let d = number_at(rows, row, 4);
    match kind {
        StatementKind::Empty => StatementShape::Empty,
        StatementKind::Express => StatementShape::Express(a),
        StatementKind::Block => StatementShape::Block(a),
        StatementKind::If => StatementShape::If(a, b, c),
        StatementKind::While => StatementShape::While(a, b),
        StatementKind::Do => StatementShape::Do(a, b),
        StatementKind::For => StatementShape::For(a, b, c, d),
        StatementKind::Switch => StatementShape::Switch(a, b),
        StatementKind::Break => StatementShape::Break,
        StatementKind::Continue => StatementShape::Continue,
        StatementKind::Goto => StatementShape::Goto(a),
        StatementKind::GuardedIf => StatementShape::GuardedIf(a),
        StatementKind::GuardedDo => StatementShape::GuardedDo(a),
        StatementKind::Abort => StatementShape::Abort,
        StatementKind::Declare => StatementShape::Declare(a, b),
        StatementKind::Return => StatementShape::Return(a),
    }
}

pub fn mark_shape(rows: &[i32], row: usize, kind: MarkKind) -> MarkShape
    requires { 6 * row + 5 < length rows.now }
    ensures { result ≡ mark_as rows.now row kind }
{
    let a = number_at(rows, row, 1);
    match kind {
        MarkKind::Case => MarkShape::Case(word_at(rows, row, 1)),
        MarkKind::Default => MarkShape::Default,
        MarkKind::Label => MarkShape::Label(a),
    }
}

pub fn definition_shape(rows: &[i32], row: usize) -> Shape
    requires { 6 * row + 5 < length rows.now }
    ensures { result ≡ definition_as rows.now row }
{
    let number = number_at(rows, row, 1);
    let parameters = number_at(rows, row, 2);
    let body = number_at(rows, row, 3);
    Shape::OfDefinition(number, parameters, body)
}

pub fn member_shape(rows: &[i32], row: usize, kind: MemberKind) -> Shape
    requires { 6 * row + 5 < length rows.now }
    ensures { result ≡ member_as rows.now row kind }
{
    let a = number_at(rows, row, 1);
    let b = number_at(rows, row, 2);
    match kind {
        MemberKind::Arm => Shape::OfArm(a, b),
        MemberKind::Argument => Shape::OfArgument(a),
    }
}
