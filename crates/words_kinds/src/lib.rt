// Kinds and operators by their numbers, and the kind of a row.
#![tactic(auto)]

ghost use Rattle.std.specs.Prelude.{◌≡◌, ◌*◌, ◌<◌, length};
ghost use Rattle.words.specs.Kinds.{kind_of, kind_at, operator_of};

use words::table::number_at;
use words::{ExpressionKind, Kind, MarkKind, MemberKind, Operator, StatementKind};

// The kind with this number.
pub fn kind_of(number: usize) -> Kind
    ensures { result ≡ kind_of number }
{
    match number {
        1 => Kind::OfExpression(ExpressionKind::Constant),
        2 => Kind::OfExpression(ExpressionKind::Variable),
        3 => Kind::OfExpression(ExpressionKind::Element),
        4 => Kind::OfExpression(ExpressionKind::Minus),
        5 => Kind::OfExpression(ExpressionKind::Not),
        6 => Kind::OfExpression(ExpressionKind::Binary(Operator::Add)),
        7 => Kind::OfExpression(ExpressionKind::Binary(Operator::Subtract)),
        8 => Kind::OfExpression(ExpressionKind::Binary(Operator::Multiply)),
        9 => Kind::OfExpression(ExpressionKind::Binary(Operator::Divide)),
        10 => Kind::OfExpression(ExpressionKind::Binary(Operator::Remainder)),
        11 => Kind::OfExpression(ExpressionKind::Binary(Operator::Less)),
        12 => Kind::OfExpression(ExpressionKind::Binary(Operator::Greater)),
        13 => Kind::OfExpression(ExpressionKind::Binary(Operator::LessOrEqual)),
        14 => Kind::OfExpression(ExpressionKind::Binary(Operator::GreaterOrEqual)),
        15 => Kind::OfExpression(ExpressionKind::Binary(Operator::Equal)),
        16 => Kind::OfExpression(ExpressionKind::Binary(Operator::NotEqual)),
        17 => Kind::OfExpression(ExpressionKind::And),
        18 => Kind::OfExpression(ExpressionKind::Or),
        19 => Kind::OfExpression(ExpressionKind::Conditional),
        20 => Kind::OfExpression(ExpressionKind::Comma),
        21 => Kind::OfExpression(ExpressionKind::Assign),
        22 => Kind::OfExpression(ExpressionKind::Compound(Operator::Add)),
        23 => Kind::OfExpression(ExpressionKind::Compound(Operator::Subtract)),
        24 => Kind::OfExpression(ExpressionKind::Compound(Operator::Multiply)),
        25 => Kind::OfExpression(ExpressionKind::Compound(Operator::Divide)),
        26 => Kind::OfExpression(ExpressionKind::Compound(Operator::Remainder)),
        27 => Kind::OfExpression(ExpressionKind::Prefix(Operator::Add)),
        28 => Kind::OfExpression(ExpressionKind::Prefix(Operator::Subtract)),
        29 => Kind::OfExpression(ExpressionKind::Postfix(Operator::Add)),
        30 => Kind::OfExpression(ExpressionKind::Postfix(Operator::Subtract)),
        31 => Kind::OfExpression(ExpressionKind::Call),
        32 => Kind::OfMember(MemberKind::Argument),
        40 => Kind::OfStatement(StatementKind::Empty),
        41 => Kind::OfStatement(StatementKind::Express),
        42 => Kind::OfStatement(StatementKind::Block),
        43 => Kind::OfStatement(StatementKind::If),
        44 => Kind::OfStatement(StatementKind::While),
        45 => Kind::OfStatement(StatementKind::Do),
        46 => Kind::OfStatement(StatementKind::For),
        47 => Kind::OfStatement(StatementKind::Switch),
        48 => Kind::OfMark(MarkKind::Case),
        49 => Kind::OfMark(MarkKind::Default),
        50 => Kind::OfStatement(StatementKind::Break),
        51 => Kind::OfStatement(StatementKind::Continue),
        52 => Kind::OfStatement(StatementKind::Goto),
        53 => Kind::OfMark(MarkKind::Label),
        54 => Kind::OfStatement(StatementKind::GuardedIf),
        55 => Kind::OfStatement(StatementKind::GuardedDo),
        56 => Kind::OfMember(MemberKind::Arm),
        57 => Kind::OfStatement(StatementKind::Abort),
        58 => Kind::OfStatement(StatementKind::Declare),
        59 => Kind::Definition,
        60 => Kind::OfStatement(StatementKind::Return),
        _ => Kind::Other,
    }
}

pub fn kind_at(rows: &[i32], row: usize) -> Kind
    requires { 6 * row < length rows.now }
    ensures { result ≡ kind_at rows.now row }
{
    kind_of(number_at(rows, row, 0))
}

// The operator at a position of their order: kinds that differ in an operator stand in this order.
pub fn operator_of(position: usize) -> Operator
    ensures { result ≡ operator_of position }
{
    match position {
        0 => Operator::Add,
        1 => Operator::Subtract,
        2 => Operator::Multiply,
        3 => Operator::Divide,
        4 => Operator::Remainder,
        5 => Operator::Less,
        6 => Operator::Greater,
        7 => Operator::LessOrEqual,
        8 => Operator::GreaterOrEqual,
        9 => Operator::Equal,
        _ => Operator::NotEqual,
    }
}
