// What an expression does with its operands' values, where it chooses nothing.
ghost use Rattle.std.specs.Prelude.{◌≡◌, ◌+◌, ◌*◌, ◌≤◌, ◌<◌, length};
ghost use Rattle.words.specs.Table.{row_count};
ghost use Rattle.language.specs.Trees.{binary, assign, variable, element};
ghost use Rattle.language.specs.Decode.{place_of, expression_at};
ghost use Rattle.translation.specs.Translate.{atom_of, place_taken, read_code, kernel_place, update_code, step_code, postfix_code};
ghost use Rattle.translation.specs.TranslateSize.{update_rows, step_rows, postfix_rows};
ghost use Rattle.translation.specs.Holding.{hold_by};
ghost use Rattle.language_shapes.specs.Shapes.{place_tree as place_shape_tree};
ghost use Rattle.language_emission.specs.Emission.{emit_items};
ghost use Rattle.measures_table.specs.Parts.{called_in};
ghost use Rattle.words.specs.Over.{over};
ghost use Rattle.writers_rows.specs.Room.{Room};
ghost use Rattle.writers_rows.specs.Atoms.{atom_tree, place_tree, AtomFits, PlaceFits};
ghost use Rattle.writers_rows.specs.Straight.{straight_code, element_update, kept_step};
ghost use Rattle.writers_steps.specs.Asks.{Writes, StraightAsks, ReadAsks, VariableAsks, ElementAsks, AssignmentAsks, OperationAsks, OperatorAsks};

use super::atoms::{atom_at, held_atom, kernel_place, operand_copied, place_taken, target_word};
use super::{WritePosition, WriteSource};
use language_shapes::rows::{expression_at, place_at};
use language_shapes::{ExpressionShape, OperationShape, PlaceShape};
use measures_expressions::holders::{direct_at, taken_at};
use translation::Use;
use words::Operator;
use writers_rows::assignments::{put_binary, put_copy, put_fetch, put_minus, put_store};
use writers_rows::{KernelAtom, KernelPlace};

// The copy of a value that waits, into the temporary of its level; nothing where it is not copied.
pub fn put_hold(
    source: &WriteSource<'_>,
    value: usize,
    copied: usize,
    at: WritePosition,
    out: &mut [i32],
)
    requires { Writes source.now × (value < row_count source.now.rows.now) × (at.level ≤ 4096) × Room (4 * copied) at.base (length out.old) }
    ensures { out.new ≡ over (emit_items at.follows (hold_by source.now.store at.level copied (atom_of (called_in source.now.rows.now) (expression_at source.now.rows.now value))) at.base) out.old }
{
    if copied == 1 {
        let atom = atom_at(source, value, at.level);
        put_copy(source.store + at.level, atom, at.base, at.follows, out);
    }
}

// An element's value into its target; a variable stands for its own.
fn put_read(
    source: &WriteSource<'_>,
    place: PlaceShape,
    usage: Use,
    at: WritePosition,
    out: &mut [i32],
)
    requires { ReadAsks source.now place usage at.level at.base (length out.old) }
    ensures { out.new ≡ over (emit_items at.follows (read_code (called_in source.now.rows.now) source.now.store (place_shape_tree source.now.rows.now place) usage at.level) at.base) out.old }
{
    match place {
        PlaceShape::Variable(_) => {}
        PlaceShape::Element(array, index) => {
            let number = target_word(source.store, at.level, usage);
            let atom = atom_at(source, index, at.level);
            put_fetch(number, array, atom, at.base, at.follows, out);
        }
    }
}

// old := element, new := old operator operand, element := new
fn put_element_update(
    array: usize,
    index: KernelAtom,
    operator: Operator,
    operand: KernelAtom,
    old: usize,
    new: usize,
    base: usize,
    follows: bool,
    out: &mut [i32],
)
    requires { Room 16 base (length out.old) × (array < 65536) × AtomFits index × AtomFits operand × (old < 65536) × (new < 65536) }
    ensures { out.new ≡ over (emit_items follows (element_update operator array (atom_tree index) (atom_tree operand) old new) base) out.old }
{
    put_fetch(old, array, index, base, true, out);
    put_binary(
        new,
        operator,
        KernelAtom::Variable(old),
        operand,
        base + 5,
        true,
        &mut out[30..],
    );
    put_store(
        array,
        index,
        KernelAtom::Variable(new),
        base + 11,
        follows,
        &mut out[66..],
    );
}

// place := place operator atom; an element's through the temporary of a level, and its old value through one above.
fn put_update(
    store: usize,
    operator: Operator,
    place: KernelPlace,
    operand: KernelAtom,
    above: usize,
    at: WritePosition,
    out: &mut [i32],
)
    requires { Room (update_rows (place_tree place)) at.base (length out.old) × PlaceFits place × AtomFits operand × (store + at.level < 65536) × (store + above < 65536) }
    ensures { out.new ≡ over (emit_items at.follows (update_code store operator (place_tree place) (atom_tree operand) at.level above) at.base) out.old }
{
    let result = store + at.level;
    let old = store + above;
    match place {
        KernelPlace::Variable(number) => {
            let value = KernelAtom::Variable(number);
            put_binary(number, operator, value, operand, at.base, at.follows, out);
        }
        KernelPlace::Element(array, index) => put_element_update(
            array, index, operator, operand, old, result, at.base, at.follows, out,
        ),
    }
}

// old := variable, variable := old operator 1
fn put_kept_step(
    operator: Operator,
    number: usize,
    old: usize,
    base: usize,
    follows: bool,
    out: &mut [i32],
)
    requires { Room 10 base (length out.old) × (number < 65536) × (old < 65536) }
    ensures { out.new ≡ over (emit_items follows (kept_step operator number old) base) out.old }
{
    put_copy(old, KernelAtom::Variable(number), base, true, out);
    let value = KernelAtom::Variable(old);
    let one = KernelAtom::Constant(1);
    let rest = &mut out[24..];
    put_binary(number, operator, value, one, base + 4, follows, rest);
}

// A variable operated on with 1; its old value goes into the temporary of a level, where it is used.
fn put_variable_step(
    store: usize,
    operator: Operator,
    number: usize,
    usage: Use,
    at: WritePosition,
    out: &mut [i32],
)
    requires { Room (step_rows usage) at.base (length out.old) × (number < 65536) × (store + at.level < 65536) }
    ensures { out.new ≡ over (emit_items at.follows (step_code store operator number usage at.level) at.base) out.old }
{
    let old = store + at.level;
    match usage {
        Use::Dropped => {
            let value = KernelAtom::Variable(number);
            let one = KernelAtom::Constant(1);
            put_binary(number, operator, value, one, at.base, at.follows, out);
        }
        Use::Wanted => put_kept_step(operator, number, old, at.base, at.follows, out),
        Use::Stored(_) => put_kept_step(operator, number, old, at.base, at.follows, out),
    }
}

// The old value into the temporary of a level, where it is used, and the new one into the place, an element's through a temporary above.
fn put_postfix(
    store: usize,
    operator: Operator,
    place: KernelPlace,
    usage: Use,
    above: usize,
    at: WritePosition,
    out: &mut [i32],
)
    requires { Room (postfix_rows (place_tree place) usage) at.base (length out.old) × PlaceFits place × (store + at.level < 65536) × (store + above < 65536) }
    ensures { out.new ≡ over (emit_items at.follows (postfix_code store operator (place_tree place) usage at.level above) at.base) out.old }
{
    let old = store + at.level;
    let new = store + above;
    let one = KernelAtom::Constant(1);
    match place {
        KernelPlace::Variable(number) => {
            put_variable_step(store, operator, number, usage, at, out)
        }
        KernelPlace::Element(array, index) => put_element_update(
            array, index, operator, one, old, new, at.base, at.follows, out,
        ),
    }
}

// A value into a variable; one that went straight there is there already.
pub fn put_variable(
    source: &WriteSource<'_>,
    number: usize,
    value: usize,
    usage: Use,
    at: WritePosition,
    out: &mut [i32],
)
    requires { VariableAsks source.now number value at.level at.base (length out.old) }
    ensures { out.new ≡ over (emit_items at.follows (straight_code (called_in source.now.rows.now) source.now.store (assign (variable number) (expression_at source.now.rows.now value)) usage at.level) at.base) out.old }
{
    if direct_at(source.rows, value) {
        return;
    }
    let atom = atom_at(source, value, at.level);
    put_copy(number, atom, at.base, at.follows, out);
}

// A value that waited into an element.
fn put_element(
    source: &WriteSource<'_>,
    array: usize,
    index: usize,
    value: usize,
    copied: usize,
    usage: Use,
    at: WritePosition,
    out: &mut [i32],
)
    requires { ElementAsks source.now array index value copied at.level at.base (length out.old) }
    ensures { out.new ≡ over (emit_items at.follows (straight_code (called_in source.now.rows.now) source.now.store (assign (element array (expression_at source.now.rows.now index)) (expression_at source.now.rows.now value)) usage at.level) at.base) out.old }
{
    let value_atom = held_atom(source, value, copied, at.level);
    let above = at.level + taken_at(source.rows, source.table, value) + copied;
    let index_atom = atom_at(source, index, above);
    put_store(array, index_atom, value_atom, at.base, at.follows, out);
}

// The value of the first operand into the place at a row.
fn put_assignment(
    source: &WriteSource<'_>,
    place: usize,
    value: usize,
    copied: usize,
    usage: Use,
    at: WritePosition,
    out: &mut [i32],
)
    requires { AssignmentAsks source.now place value copied at.level at.base (length out.old) }
    ensures { out.new ≡ over (emit_items at.follows (straight_code (called_in source.now.rows.now) source.now.store (assign (place_of (expression_at source.now.rows.now place)) (expression_at source.now.rows.now value)) usage at.level) at.base) out.old }
{
    let shape = place_at(source.rows, place);
    match shape {
        PlaceShape::Variable(number) => put_variable(source, number, value, usage, at, out),
        PlaceShape::Element(array, index) => {
            put_element(source, array, index, value, copied, usage, at, out)
        }
    }
}

// The place at a row, operated on with an atom.
fn put_operation(
    source: &WriteSource<'_>,
    operator: Operator,
    place: usize,
    operand: KernelAtom,
    at: WritePosition,
    out: &mut [i32],
)
    requires { OperationAsks source.now place (update_rows (place_of (expression_at source.now.rows.now place))) at.level at.base (length out.old) × AtomFits operand }
    ensures { out.new ≡ over (emit_items at.follows (update_code source.now.store operator (kernel_place (called_in source.now.rows.now) source.now.store (place_of (expression_at source.now.rows.now place)) (at.level + 1)) (atom_tree operand) at.level (at.level + 1 + place_taken (called_in source.now.rows.now) (place_of (expression_at source.now.rows.now place)))) at.base) out.old }
{
    let target = kernel_place(source, place, at.level + 1);
    let above = at.level + 1 + place_taken(source, place);
    put_update(source.store, operator, target, operand, above, at, out);
}

// The place at a row, operated on with 1; its old value is the result.
fn put_step(
    source: &WriteSource<'_>,
    operator: Operator,
    place: usize,
    usage: Use,
    at: WritePosition,
    out: &mut [i32],
)
    requires { OperationAsks source.now place (postfix_rows (place_of (expression_at source.now.rows.now place)) usage) at.level at.base (length out.old) }
    ensures { out.new ≡ over (emit_items at.follows (postfix_code source.now.store operator (kernel_place (called_in source.now.rows.now) source.now.store (place_of (expression_at source.now.rows.now place)) (at.level + 1)) usage at.level (at.level + 1 + place_taken (called_in source.now.rows.now) (place_of (expression_at source.now.rows.now place)))) at.base) out.old }
{
    let target = kernel_place(source, place, at.level + 1);
    let above = at.level + 1 + place_taken(source, place);
    put_postfix(source.store, operator, target, usage, above, at, out);
}

// The operation of a binary operator on the values of its operands.
fn put_operator(
    source: &WriteSource<'_>,
    operator: Operator,
    left: usize,
    right: usize,
    copied: usize,
    usage: Use,
    at: WritePosition,
    out: &mut [i32],
)
    requires { OperatorAsks source.now left right copied usage at.level at.base (length out.old) }
    ensures { out.new ≡ over (emit_items at.follows (straight_code (called_in source.now.rows.now) source.now.store (binary operator (expression_at source.now.rows.now left) (expression_at source.now.rows.now right)) usage at.level) at.base) out.old }
{
    let right_atom = held_atom(source, right, copied, at.level);
    let above = at.level + taken_at(source.rows, source.table, right) + copied;
    let left_atom = atom_at(source, left, above);
    let number = target_word(source.store, at.level, usage);
    put_binary(
        number, operator, left_atom, right_atom, at.base, at.follows, out,
    );
}

// What the expression at a row, which is no call, does with its operands' values.
pub fn put_straight(
    source: &WriteSource<'_>,
    row: usize,
    usage: Use,
    at: WritePosition,
    out: &mut [i32],
)
    requires { Writes source.now × StraightAsks source.now.rows.now row usage at.level at.base (length out.old) }
    ensures { out.new ≡ over (emit_items at.follows (straight_code (called_in source.now.rows.now) source.now.store (expression_at source.now.rows.now row) usage at.level) at.base) out.old }
{
    let number = target_word(source.store, at.level, usage);
    let copied = operand_copied(source, row);
    let shape = expression_at(source.rows, row);
    match shape {
        ExpressionShape::Number(_) => {}
        ExpressionShape::Read(place) => put_read(source, place, usage, at, out),
        ExpressionShape::Operation(operation) => match operation {
            OperationShape::Minus(operand) => {
                let atom = atom_at(source, operand, at.level);
                put_minus(number, atom, at.base, at.follows, out);
            }
            OperationShape::Not(operand) => {
                let zero = KernelAtom::Constant(0);
                let atom = atom_at(source, operand, at.level);
                put_binary(
                    number,
                    Operator::Equal,
                    atom,
                    zero,
                    at.base,
                    at.follows,
                    out,
                );
            }
            OperationShape::Binary(operator, left, right) => {
                put_operator(source, operator, left, right, copied, usage, at, out)
            }
            OperationShape::Comma(_, _) => {}
            OperationShape::Assign(place, value) => {
                put_assignment(source, place, value, copied, usage, at, out)
            }
            OperationShape::Compound(operator, place, value) => {
                let atom = held_atom(source, value, copied, at.level);
                put_operation(source, operator, place, atom, at, out);
            }
            OperationShape::Prefix(operator, place) => {
                put_operation(source, operator, place, KernelAtom::Constant(1), at, out)
            }
            OperationShape::Postfix(operator, place) => {
                put_step(source, operator, place, usage, at, out)
            }
        },
        ExpressionShape::Choice(_) => {}
        // is no call
        ExpressionShape::Call(_, _) => {}
    }
}
