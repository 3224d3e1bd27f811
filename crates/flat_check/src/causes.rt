// The causes that one line can break: 3, 4 and 6.
ghost use Rattle.std.specs.Prelude.{◌≡◌, ◌<◌, not};
ghost use Rattle.flat.specs.Words.{line_count};
ghost use Rattle.flat.specs.Refusal.{known_operation, unknown_operation, lands_inside, jump_outside, holds_right, number_outside};

use super::kinds::{constant_fits, shape_of, shape_or_unused};
use check_fields::Bounds;
use check_fields::fields::number_fits;
use check_grammar::{ARRAY, VARIABLE};
use flat::Holds;
use flat::lines::{
    left_constant, magnitude, operation_at, operation_kind, right_constant, word_at,
};
use words::table::natural;

// An operation of the table, with constants only where it has atoms.
fn known_operation(operation: usize) -> bool
    ensures { result ≡ known_operation operation }
{
    if operation >= 256 {
        return false;
    }
    let Some(shape) = shape_of(operation_kind(operation)) else {
        return false;
    };
    constant_fits(left_constant(operation), shape.left)
        && constant_fits(right_constant(operation), shape.right)
}

// Cause 3.
pub fn is_unknown(list: &[i32], line: usize) -> bool
    requires { line < line_count list.now }
    ensures { result ≡ unknown_operation list.now line }
{
    !known_operation(operation_at(list, line))
}

// A jump from a line stays inside the list, or goes just past its last line.
fn lands_inside(list: &[i32], line: usize, distance: i32) -> bool
    requires { line < line_count list.now }
    ensures { result ≡ lands_inside line (line_count list.now) distance }
{
    let far = magnitude(distance);
    if distance < 0 {
        return far <= line;
    }
    line + 1 + far <= list.len() / 5
}

// Cause 4.
pub fn is_jump_outside(list: &[i32], line: usize) -> bool
    requires { line < line_count list.now }
    ensures { result ≡ jump_outside list.now line }
{
    let shape = shape_or_unused(operation_kind(operation_at(list, line)));
    let distance = word_at(list, line, 4);
    if shape.jumps {
        return !lands_inside(list, line, distance);
    }
    natural(distance) != 0
}

// A word of a line names what it should.
fn holds_right(bounds: Bounds, holds: Holds, constant: bool, word: i32) -> bool
    ensures { result ≡ holds_right bounds holds constant word }
{
    let number = natural(word);
    match holds {
        Holds::Unused => number == 0,
        Holds::Atom => constant || number_fits(bounds, VARIABLE, number),
        Holds::Variable => number_fits(bounds, VARIABLE, number),
        Holds::Array => number_fits(bounds, ARRAY, number),
    }
}

// Each word of a line names what it should.
fn words_hold_right(bounds: Bounds, list: &[i32], line: usize) -> bool
    requires { line < line_count list.now }
    ensures { not result ≡ number_outside bounds list.now line }
{
    let operation = operation_at(list, line);
    let shape = shape_or_unused(operation_kind(operation));
    holds_right(bounds, shape.target, false, word_at(list, line, 1))
        && holds_right(
            bounds,
            shape.left,
            left_constant(operation),
            word_at(list, line, 2),
        )
        && holds_right(
            bounds,
            shape.right,
            right_constant(operation),
            word_at(list, line, 3),
        )
}

// Cause 6.
pub fn is_number_outside(bounds: Bounds, list: &[i32], line: usize) -> bool
    requires { line < line_count list.now }
    ensures { result ≡ number_outside bounds list.now line }
{
    !words_hold_right(bounds, list, line)
}
