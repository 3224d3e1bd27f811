// What holds a value: the number itself, a variable, or the temporary of its level.
ghost use Rattle.std.specs.Prelude.{◌≡◌, ◌+◌, ◌*◌, ◌≤◌, ◌<◌, length};
ghost use Rattle.words.specs.Word.{pick};
ghost use Rattle.words.specs.Table.{row_count};
ghost use Rattle.language.specs.Decode.{place_of, expression_at};
ghost use Rattle.translation.specs.Uses.{direct};
ghost use Rattle.translation.specs.Translate.{updated, atom_of, taken as taken_of};
ghost use Rattle.language_shapes.specs.Source.{Source, ExpressionAt};
ghost use Rattle.language_shapes.specs.declared.ExpressionShape.TheVariants.{Operation};
ghost use Rattle.measures_table.specs.Parts.{called_in, plain_atom, place_holder, direct_operation, Holding};
ghost use Rattle.measures_table.specs.Measures.{width, MeasuredRow};

use language_shapes::rows::{expression_at, place_at};
use language_shapes::{ExpressionShape, OperationShape, PlaceShape};
use measures_table::{Holder, VALUE, WIDTH};

// A variable holds its own value; an element's goes into the temporary.
fn place_holder(place: PlaceShape) -> Holder
    ensures { result ≡ place_holder place }
{
    match place {
        PlaceShape::Variable(number) => Holder::Variable(number),
        PlaceShape::Element(_, _) => Holder::Temporary,
    }
}

// The place at a row, which an operation updates.
fn updated_holder(rows: &[i32], row: usize) -> Holder
    requires { Source rows.now × (row < row_count rows.now) }
    ensures { Holding rows.now (updated (place_of (expression_at rows.now row))) result }
{
    let place = place_at(rows, row);
    place_holder(place)
}

// An operation whose value comes from its own row.
fn operation_holder(rows: &[i32], row: usize, operation: OperationShape) -> Holder
    requires { Source rows.now × ExpressionAt rows.now row (Operation operation) }
    ensures { Holding rows.now (plain_atom (called_in rows.now) (expression_at rows.now row)) result }
{
    match operation {
        OperationShape::Minus(_) => Holder::Temporary,
        OperationShape::Not(_) => Holder::Temporary,
        OperationShape::Binary(_, _, _) => Holder::Temporary,
        OperationShape::Comma(_, _) => Holder::Temporary,
        OperationShape::Assign(place, _) => updated_holder(rows, place),
        OperationShape::Compound(_, place, _) => updated_holder(rows, place),
        OperationShape::Prefix(_, place) => updated_holder(rows, place),
        OperationShape::Postfix(_, _) => Holder::Temporary,
    }
}

// What holds the value that comes from a row.
fn plain_holder(rows: &[i32], row: usize) -> Holder
    requires { Source rows.now × (row < row_count rows.now) }
    ensures { Holding rows.now (plain_atom (called_in rows.now) (expression_at rows.now row)) result }
{
    let shape = expression_at(rows, row);
    match shape {
        ExpressionShape::Number(value) => Holder::Number(value),
        ExpressionShape::Read(place) => place_holder(place),
        ExpressionShape::Operation(operation) => operation_holder(rows, row, operation),
        ExpressionShape::Choice(_) => Holder::Temporary,
        ExpressionShape::Call(_, _) => Holder::Temporary,
    }
}

// What holds the value of the expression at a row.
pub fn holder_at(rows: &[i32], table: &[usize], row: usize) -> Holder
    requires { Source rows.now × (row < row_count rows.now) × (width * row_count rows.now ≤ length table.now) × MeasuredRow rows.now table.now row }
    ensures { Holding rows.now (atom_of (called_in rows.now) (expression_at rows.now row)) result }
{
    plain_holder(rows, table[WIDTH * row + VALUE])
}

// Whether the value of the expression at a row takes a temporary: 1 or 0.
pub fn taken_at(rows: &[i32], table: &[usize], row: usize) -> usize
    requires { Source rows.now × (row < row_count rows.now) × (width * row_count rows.now ≤ length table.now) × MeasuredRow rows.now table.now row }
    ensures { result ≡ taken_of (atom_of (called_in rows.now) (expression_at rows.now row)) }
{
    let holder = holder_at(rows, table, row);
    match holder {
        Holder::Number(_) => 0,
        Holder::Variable(_) => 0,
        Holder::Temporary => 1,
    }
}

// Whether an operation gives a result, kinds 4 to 16.
fn direct_operation(operation: OperationShape) -> bool
    ensures { result ≡ direct_operation operation }
{
    matches!(
        operation,
        OperationShape::Minus(_) | OperationShape::Not(_) | OperationShape::Binary(_, _, _)
    )
}

// Whether the value of the expression at a row is an element or the result of an operation, which goes straight into a variable that stores it.
pub fn direct_at(rows: &[i32], row: usize) -> bool
    requires { Source rows.now × (row < row_count rows.now) }
    ensures { result ≡ direct (expression_at rows.now row) }
{
    let shape = expression_at(rows, row);
    match shape {
        ExpressionShape::Number(_) => false,
        ExpressionShape::Read(place) => match place {
            PlaceShape::Variable(_) => false,
            PlaceShape::Element(_, _) => true,
        },
        ExpressionShape::Operation(operation) => direct_operation(operation),
        ExpressionShape::Choice(_) => false,
        ExpressionShape::Call(_, _) => true,
    }
}

// How many rows store the value of the expression at a row in a variable: none where it goes straight there.
pub fn store_rows(rows: &[i32], row: usize) -> usize
    requires { Source rows.now × (row < row_count rows.now) }
    ensures { result ≡ pick (direct (expression_at rows.now row)) 0 4 }
{
    if direct_at(rows, row) {
        return 0;
    }
    4
}
