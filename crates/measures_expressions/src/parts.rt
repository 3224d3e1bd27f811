// What an expression's own row brings to its code, by its shape.
ghost use Rattle.std.specs.Prelude.{◌≡◌, ◌+◌, ◌<◌, false, eqb};
ghost use Rattle.words.specs.Word.{pick};
ghost use Rattle.words.specs.Table.{row_count};
ghost use Rattle.language.specs.Decode.{expression_at};
ghost use Rattle.language_shapes.specs.Functions.{is_call};
ghost use Rattle.language_shapes.specs.Source.{ExpressionAt};
ghost use Rattle.language_shapes.specs.declared.ExpressionShape.TheVariants.{Read, Operation, Choice};
ghost use Rattle.language_shapes.specs.declared.OperationShape.TheVariants.{Assign};
ghost use Rattle.measures_table.specs.Parts.{called_in, first_copied, plain_own, result_own, stored_own, comma_own, step_own, OwnAt, PlaceOwnAt};
ghost use Rattle.measures_table.specs.Measures.{value_slot, slot_at, LinkMeasured, MeasuredFrom, StoreAsks, PostfixAt};

use super::holders::{direct_at, taken_at};
use language_shapes::rows::{expression_at, place_at};
use language_shapes::{ChoiceShape, ExpressionShape, OperationShape, PlaceShape};
use measures_table::table::measure_at;
use measures_table::{Own, PlaceOwn, VALUE};
use translation::Use;

// An expression whose own code does not depend on the use of its value.
fn own(
    first: usize,
    second: usize,
    third: usize,
    fourth: usize,
    above: usize,
    rows: usize,
    levels: usize,
    value: usize,
) -> Own
    ensures { result ≡ plain_own first second third fourth above rows levels value }
{
    Own {
        first,
        second,
        third,
        fourth,
        first_use: Use::Wanted,
        passes: false,
        above,
        rows,
        levels,
        dropped_rows: rows,
        dropped_levels: levels,
        stored_levels: levels,
        value,
    }
}

// An element or an operation, whose value takes a temporary where no variable stores it.
fn result(first: usize, second: usize, above: usize, rows: usize, value: usize) -> Own
    ensures { result ≡ result_own first second above rows value }
{
    Own {
        first,
        second,
        third: 0,
        fourth: 0,
        first_use: Use::Wanted,
        passes: false,
        above,
        rows,
        levels: 1,
        dropped_rows: rows,
        dropped_levels: 1,
        stored_levels: 0,
        value,
    }
}

// An assignment to a variable.
fn stored(number: usize, first: usize, above: usize, rows: usize, value: usize) -> Own
    ensures { result ≡ stored_own number first above rows value }
{
    Own {
        first,
        second: 0,
        third: 0,
        fourth: 0,
        first_use: Use::Stored(number),
        passes: false,
        above,
        rows,
        levels: 0,
        dropped_rows: rows,
        dropped_levels: 0,
        stored_levels: 0,
        value,
    }
}

fn own_comma(table: &[usize], left: usize, right: usize) -> Own
    requires { LinkMeasured table.now right }
    ensures { result ≡ comma_own left right (slot_at table.now right value_slot) }
{
    Own {
        first: left,
        second: right,
        third: 0,
        fourth: 0,
        first_use: Use::Dropped,
        passes: true,
        above: 0,
        rows: 0,
        levels: 0,
        dropped_rows: 0,
        dropped_levels: 0,
        stored_levels: 0,
        value: measure_at(table, right, VALUE),
    }
}

// e++ and e−− on a variable: its old value is kept only where it is used.
fn own_step(row: usize) -> Own
    ensures { result ≡ step_own row }
{
    Own {
        first: 0,
        second: 0,
        third: 0,
        fourth: 0,
        first_use: Use::Wanted,
        passes: false,
        above: 0,
        rows: 10,
        levels: 1,
        dropped_rows: 6,
        dropped_levels: 0,
        stored_levels: 1,
        value: row,
    }
}

// The place at a row.
fn place_own(rows: &[i32], table: &[usize], row: usize) -> PlaceOwn
    requires { MeasuredFrom rows.now table.now (row + 1) × (row < row_count rows.now) }
    ensures { PlaceOwnAt rows.now row result }
{
    let place = place_at(rows, row);
    match place {
        PlaceShape::Variable(_) => PlaceOwn {
            index: 0,
            rows: 0,
            levels: 0,
        },
        PlaceShape::Element(_, index) => PlaceOwn {
            index,
            rows: 1,
            levels: 2 + taken_at(rows, table, index),
        },
    }
}

fn own_read(rows: &[i32], row: usize, place: PlaceShape) -> Own
    requires { (row < row_count rows.now) × ExpressionAt rows.now row (Read place) }
    ensures { OwnAt rows.now row result }
{
    match place {
        PlaceShape::Variable(_) => own(0, 0, 0, 0, 0, 0, 0, row),
        PlaceShape::Element(_, index) => result(index, 0, 0, 5, row),
    }
}

// The row that an assignment's value comes from: its own, where it has copied the value.
fn value_at(table: &[usize], row: usize, e: usize, copied: usize) -> usize
    requires { LinkMeasured table.now e }
    ensures { result ≡ pick (eqb copied 1) row (slot_at table.now e value_slot) }
{
    if copied == 1 {
        return row;
    }
    measure_at(table, e, VALUE)
}

// An assignment to a variable: a value that goes straight there comes from the assignment's own row.
fn own_store(rows: &[i32], table: &[usize], row: usize, number: usize, e: usize) -> Own
    requires { StoreAsks rows.now table.now row number e }
    ensures { OwnAt rows.now row result }
{
    if direct_at(rows, e) {
        return stored(number, e, 0, 0, row);
    }
    let above = taken_at(rows, table, e);
    stored(number, e, above, 4, measure_at(table, e, VALUE))
}

fn own_assign(
    rows: &[i32],
    table: &[usize],
    row: usize,
    copied: usize,
    place: usize,
    e: usize,
) -> Own
    requires { MeasuredFrom rows.now table.now (row + 1) × (row < row_count rows.now) × ExpressionAt rows.now row (Operation (Assign place e)) × (copied ≡ first_copied (called_in rows.now) (expression_at rows.now row)) }
    ensures { OwnAt rows.now row result }
{
    let shape = place_at(rows, place);
    match shape {
        PlaceShape::Variable(number) => own_store(rows, table, row, number, e),
        PlaceShape::Element(_, index) => {
            let above = taken_at(rows, table, e) + copied;
            let value = value_at(table, row, e, copied);
            own(e, index, 0, 0, above, 5 + 4 * copied, 0, value)
        }
    }
}

fn own_postfix(rows: &[i32], table: &[usize], row: usize, place: usize) -> Own
    requires { MeasuredFrom rows.now table.now (row + 1) × (row < row_count rows.now) × PostfixAt rows.now row place }
    ensures { OwnAt rows.now row result }
{
    let shape = place_at(rows, place);
    match shape {
        PlaceShape::Variable(_) => own_step(row),
        PlaceShape::Element(_, index) => {
            let levels = 2 + taken_at(rows, table, index);
            own(0, index, 0, 0, 1, 16, levels, row)
        }
    }
}

fn own_operation(
    rows: &[i32],
    table: &[usize],
    row: usize,
    copied: usize,
    operation: OperationShape,
) -> Own
    requires { MeasuredFrom rows.now table.now (row + 1) × (row < row_count rows.now) × ExpressionAt rows.now row (Operation operation) × (copied ≡ first_copied (called_in rows.now) (expression_at rows.now row)) }
    ensures { OwnAt rows.now row result }
{
    match operation {
        OperationShape::Minus(a) => result(a, 0, 0, 5, row),
        OperationShape::Not(a) => result(a, 0, 0, 6, row),
        OperationShape::Binary(_, a, b) => {
            let above = taken_at(rows, table, b) + copied;
            result(b, a, above, 6 + 4 * copied, row)
        }
        OperationShape::Comma(a, b) => own_comma(table, a, b),
        OperationShape::Assign(place, e) => own_assign(rows, table, row, copied, place, e),
        OperationShape::Compound(_, place, e) => {
            let p = place_own(rows, table, place);
            let own_rows = 6 + 10 * p.rows + 4 * copied;
            own(e, p.index, 0, 0, p.rows, own_rows, p.levels, row)
        }
        OperationShape::Prefix(_, place) => {
            let p = place_own(rows, table, place);
            own(0, p.index, 0, 0, p.rows, 6 + 10 * p.rows, p.levels, row)
        }
        OperationShape::Postfix(_, place) => own_postfix(rows, table, row, place),
    }
}

fn own_choice(rows: &[i32], table: &[usize], row: usize, choice: ChoiceShape) -> Own
    requires { MeasuredFrom rows.now table.now (row + 1) × (row < row_count rows.now) × ExpressionAt rows.now row (Choice choice) }
    ensures { OwnAt rows.now row result }
{
    match choice {
        ChoiceShape::And(a, b) => own(a, 0, b, 0, 0, 14, 1, row),
        ChoiceShape::Or(a, b) => own(a, 0, b, 0, 0, 14, 1, row),
        ChoiceShape::Conditional(test, a, b) => {
            let own_rows = 12 - 4 * taken_at(rows, table, a) - 4 * taken_at(rows, table, b);
            own(test, 0, a, b, 0, own_rows, 1, row)
        }
    }
}

// The expression at a row that is no call; `copied` is 1 where the value of its first operand is copied, else 0.
pub fn own_at(rows: &[i32], table: &[usize], row: usize, copied: usize) -> Own
    requires measured_from { MeasuredFrom rows.now table.now (row + 1) × (row < row_count rows.now) × (copied ≡ first_copied (called_in rows.now) (expression_at rows.now row)) }
    requires row_value { is_call (expression_at rows.now row) ≡ false }
    ensures { OwnAt rows.now row result }
{
    let shape = expression_at(rows, row);
    match shape {
        ExpressionShape::Number(_) => own(0, 0, 0, 0, 0, 0, 0, row),
        ExpressionShape::Read(place) => own_read(rows, row, place),
        ExpressionShape::Operation(operation) => {
            own_operation(rows, table, row, copied, operation)
        }
        ExpressionShape::Choice(choice) => own_choice(rows, table, row, choice),
        // is no call
        ExpressionShape::Call(_, _) => own(0, 0, 0, 0, 0, 0, 0, row),
    }
}
