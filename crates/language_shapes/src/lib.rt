// Shapes: what stands at a row, with its links, read once from the row's words. A new kind is a variant of its group here, and a line
// of the functions that read it.
#![tactic(auto)]

use words::Operator;

pub mod kinds; // kinds.rt: the shape of a row of a kind
pub mod rows; // rows.rt: the shape of the row, as an expression, a place, a statement, an item, an arm or an argument

// A place: the number of a variable; or the number of an array and the row of the index.
#[derive(Clone, Copy)]
pub enum PlaceShape {
    Variable(usize),
    Element(usize, usize),
}

// An expression that works out its operands and then does one thing with their values. A link to a place is the place's row.
#[derive(Clone, Copy)]
pub enum OperationShape {
    Minus(usize),
    Not(usize),
    Binary(Operator, usize, usize),
    Comma(usize, usize),
    Assign(usize, usize),
    Compound(Operator, usize, usize),
    Prefix(Operator, usize),
    Postfix(Operator, usize),
}

// An expression that chooses which of its operands it works out.
#[derive(Clone, Copy)]
pub enum ChoiceShape {
    And(usize, usize),
    Or(usize, usize),
    Conditional(usize, usize, usize),
}

// A call with the number of its function and the row of its first argument.
#[derive(Clone, Copy)]
pub enum ExpressionShape {
    Number(i32),
    Read(PlaceShape),
    Operation(OperationShape),
    Choice(ChoiceShape),
    Call(usize, usize),
}

// A statement with its links; 0 is absent. A declaration with the store word of its object.
#[derive(Clone, Copy)]
pub enum StatementShape {
    Empty,
    Express(usize),
    Block(usize),
    If(usize, usize, usize),
    While(usize, usize),
    Do(usize, usize),
    For(usize, usize, usize, usize),
    Switch(usize, usize),
    Break,
    Continue,
    Goto(usize),
    GuardedIf(usize),
    GuardedDo(usize),
    Abort,
    Declare(usize, usize),
    Return(usize),
}

#[derive(Clone, Copy)]
pub enum MarkShape {
    Case(i32),
    Default,
    Label(usize),
}

// What stands at a row, by the group of its kind; an arm with the rows of its guard and of its block, an argument with that of its expression,
// a definition with its number and the rows of its first parameter and of its block.
#[derive(Clone, Copy)]
pub enum Shape {
    OfExpression(ExpressionShape),
    OfStatement(StatementShape),
    OfMark(MarkShape),
    OfArm(usize, usize),
    OfArgument(usize),
    OfDefinition(usize, usize, usize),
    Other,
}

// What a row is as an item of a list.
#[derive(Clone, Copy)]
pub enum Item {
    Statement,
    Mark(MarkShape),
    Definition(usize, usize, usize),
}
