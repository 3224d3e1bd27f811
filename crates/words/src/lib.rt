// Words, tables and layouts: the leaves that every other crate stands on, and the answers they share.
#![tactic(auto)]

ghost use Rattle.std.specs.Prelude.{◌≡◌};
ghost use Rattle.words.specs.Causes.{cause_number};

use std::marker::Model;

pub mod declarations; // declarations.rt: which rows are declarations, and how many there are
pub mod layout; // layout.rt: the header's limits, and the sizes it gives
pub mod table; // table.rt: the words of a row, and the numbers they name

// The two forms of a program.
#[derive(Clone, Copy, PartialEq, Eq)]
pub enum Form {
    Source,
    Kernel,
}

// Why an entry did nothing, in the order of document 01's table of causes.
#[derive(Clone, Copy, PartialEq, Eq, PartialOrd, Ord)]
pub enum Cause {
    Header,
    RowCount,
    Foreign,
    Mislinked,
    NotLinkedOnce,
    NumberOutside,
    Misplaced,
    RepeatedMark,
    TooDeep,
    NoRoom,
    StoreSize,
    NotKernelForm,
    LabelFault,
    MalformedText,
    ScratchSize,
    HeadersDiffer,
    TooManyRows,
    NamesItself,
    DeclaredTwice,
    TooManyDeclared,
    MalformedDay,
    DayVariable,
    FunctionOrder,
    WrongCall,
    DefinesFunctions,
}

impl Cause {
    // Document 01's number of the cause.
    pub fn number(self) -> u32
        ensures { result ≡ cause_number self }
    {
        match self {
            Cause::Header => 1,
            Cause::RowCount => 2,
            Cause::Foreign => 3,
            Cause::Mislinked => 4,
            Cause::NotLinkedOnce => 5,
            Cause::NumberOutside => 6,
            Cause::Misplaced => 7,
            Cause::RepeatedMark => 8,
            Cause::TooDeep => 9,
            Cause::NoRoom => 10,
            Cause::StoreSize => 11,
            Cause::NotKernelForm => 12,
            Cause::LabelFault => 13,
            Cause::MalformedText => 14,
            Cause::ScratchSize => 15,
            Cause::HeadersDiffer => 16,
            Cause::TooManyRows => 17,
            Cause::NamesItself => 18,
            Cause::DeclaredTwice => 19,
            Cause::TooManyDeclared => 20,
            Cause::MalformedDay => 21,
            Cause::DayVariable => 22,
            Cause::FunctionOrder => 23,
            Cause::WrongCall => 24,
            Cause::DefinesFunctions => 25,
        }
    }
}

// A cause and its place: a row, a line, or 0. Clauses see the cause by its number.
#[derive(Clone, Copy, PartialEq, Eq)]
pub struct Refusal {
    pub cause: Cause,
    pub place: usize,
}

impl Model for Refusal {
    ghost use Rattle.words.specs.Refusals.{NumberedRefusal, numbered, cause_numbered};

    ghost Value = { NumberedRefusal };

    ghost view = { λ r. numbered r.cause r.place };

    ghost inverse = { λ n. record { cause = cause_numbered n.number; place = n.place } };
}

// Document 01's "fault of one of three sorts", and document 02's fourth: no guard was true.
#[derive(Clone, Copy, PartialEq, Eq)]
pub enum FaultSort {
    Overflow,
    ZeroDivisor,
    Index,
    Guard,
}

// "A run ends plainly, spent, or with a fault", of one of four sorts.
#[derive(Clone, Copy, PartialEq, Eq)]
pub enum Ending {
    Plain,
    Spent,
    Fault(FaultSort),
}

// How a run ended, and "the number of steps that the run made".
#[derive(Clone, Copy, PartialEq, Eq)]
pub struct RunAnswer {
    pub ending: Ending,
    pub count: u32,
}

// Kinds 6 to 16, and the operators of kinds 22 to 30.
#[derive(Clone, Copy, PartialEq, Eq)]
pub enum Operator {
    Add,
    Subtract,
    Multiply,
    Divide,
    Remainder,
    Less,
    Greater,
    LessOrEqual,
    GreaterOrEqual,
    Equal,
    NotEqual,
}

// Kinds 1 to 31. Kinds that differ in an operator are one variant.
#[derive(Clone, Copy, PartialEq, Eq)]
pub enum ExpressionKind {
    Constant,
    Variable,
    Element,
    Minus,
    Not,
    Binary(Operator),
    And,
    Or,
    Conditional,
    Comma,
    Assign,
    Compound(Operator),
    Prefix(Operator),
    Postfix(Operator),
    Call,
}

// Statements that are no marks.
#[derive(Clone, Copy, PartialEq, Eq)]
pub enum StatementKind {
    Empty,
    Express,
    Block,
    If,
    While,
    Do,
    For,
    Switch,
    Break,
    Continue,
    Goto,
    GuardedIf,
    GuardedDo,
    Abort,
    Declare,
    Return,
}

// Statements that a jump can go to.
#[derive(Clone, Copy, PartialEq, Eq)]
pub enum MarkKind {
    Case,
    Default,
    Label,
}

// Rows of a list that is no list of items: they are neither expressions nor statements.
#[derive(Clone, Copy, PartialEq, Eq)]
pub enum MemberKind {
    Arm,
    Argument,
}

// The kinds of rows, in groups: a function that says something of one group has one case for each other group. The definition of a function is a
// group by itself: an item that a run passes over.
#[derive(Clone, Copy, PartialEq, Eq)]
pub enum Kind {
    OfExpression(ExpressionKind),
    OfStatement(StatementKind),
    OfMark(MarkKind),
    OfMember(MemberKind),
    Definition,
    Other,
}
