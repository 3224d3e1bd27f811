// The assignments of the kernel: to a variable an atom, its negative, an operation or an element, and to an element an atom.
ghost use Rattle.std.specs.Prelude.{◌≡◌, ◌++◌, ◌+◌, ◌≤◌, ◌<◌, pos, length};
ghost use Rattle.language.specs.Trees.{read, minus, binary, assign, variable, element, express, none, ◌then◌};
ghost use Rattle.language_emission.specs.Emission.{row_of, emit_items};
ghost use Rattle.words.specs.Over.{over};
ghost use Rattle.writers_rows.specs.Room.{Room};
ghost use Rattle.writers_rows.specs.Atoms.{atom_tree, atom_row, AtomFits};
ghost use Rattle.writers_rows.specs.Straight.{target_rows};

use super::KernelAtom;
use super::rows::{behind, operator_number, put_atom, put_row};
use words::Operator;

// The rows that head an assignment of `size` rows: the statement, the assignment, whose value stands at the row `value`, and its place's own row.
pub fn put_target(
    kind: usize,
    number: usize,
    index: usize,
    value: usize,
    size: usize,
    base: usize,
    follows: bool,
    out: &mut [i32],
)
    requires { Room size base (length out.old) × (3 ≤ size) × (kind < 65536) × (number < 65536) × (index < 65536) × (value < 65536) }
    ensures { out.new ≡ over (target_rows kind number index value size base follows) out.old }
{
    put_row(41, base + 1, 0, 0, behind(follows, base + size), out);
    put_row(21, base + 2, value, 0, 0, &mut out[6..]);
    put_row(kind, number, index, 0, 0, &mut out[12..]);
}

// The rows of an assignment of `size` rows to a variable, up to the first atom of its value: an expression of a kind with the fields a and b.
fn put_operand(
    number: usize,
    kind: usize,
    a: usize,
    b: usize,
    operand: KernelAtom,
    size: usize,
    base: usize,
    follows: bool,
    out: &mut [i32],
)
    requires { Room size base (length out.old) × (5 ≤ size) × (number < 65536) × (kind < 65536) × (a < 65536) × (b < 65536) × AtomFits operand }
    ensures { out.new ≡ over ((target_rows 2 number 0 (base + 3) size base follows ++ row_of kind (pos a) b 0 0 0) ++ atom_row operand) out.old }
{
    put_target(2, number, 0, base + 3, size, base, follows, out);
    put_row(kind, a, b, 0, 0, &mut out[18..]);
    put_atom(operand, &mut out[24..]);
}

// variable := atom
pub fn put_copy(number: usize, source: KernelAtom, base: usize, follows: bool, out: &mut [i32])
    requires { Room 4 base (length out.old) × (number < 65536) × AtomFits source }
    ensures { out.new ≡ over (emit_items follows (express (assign (variable number) (atom_tree source)) then none) base) out.old }
{
    put_target(2, number, 0, base + 3, 4, base, follows, out);
    put_atom(source, &mut out[18..]);
}

// variable := - atom
pub fn put_minus(number: usize, operand: KernelAtom, base: usize, follows: bool, out: &mut [i32])
    requires { Room 5 base (length out.old) × (number < 65536) × AtomFits operand }
    ensures { out.new ≡ over (emit_items follows (express (assign (variable number) (minus (atom_tree operand))) then none) base) out.old }
{
    put_operand(number, 4, base + 4, 0, operand, 5, base, follows, out);
}

// variable := atom operator atom
pub fn put_binary(
    number: usize,
    operator: Operator,
    left: KernelAtom,
    right: KernelAtom,
    base: usize,
    follows: bool,
    out: &mut [i32],
)
    requires { Room 6 base (length out.old) × (number < 65536) × AtomFits left × AtomFits right }
    ensures { out.new ≡ over (emit_items follows (express (assign (variable number) (binary operator (atom_tree left) (atom_tree right))) then none) base) out.old }
{
    let kind = 6 + operator_number(operator);
    put_operand(
        number,
        kind,
        base + 4,
        base + 5,
        left,
        6,
        base,
        follows,
        out,
    );
    put_atom(right, &mut out[30..]);
}

// variable := array[atom]
pub fn put_fetch(
    number: usize,
    array: usize,
    index: KernelAtom,
    base: usize,
    follows: bool,
    out: &mut [i32],
)
    requires { Room 5 base (length out.old) × (number < 65536) × (array < 65536) × AtomFits index }
    ensures { out.new ≡ over (emit_items follows (express (assign (variable number) (read (element array (atom_tree index)))) then none) base) out.old }
{
    put_operand(number, 3, array, base + 4, index, 5, base, follows, out);
}

// array[atom] := atom
pub fn put_store(
    array: usize,
    index: KernelAtom,
    value: KernelAtom,
    base: usize,
    follows: bool,
    out: &mut [i32],
)
    requires { Room 5 base (length out.old) × (array < 65536) × AtomFits index × AtomFits value }
    ensures { out.new ≡ over (emit_items follows (express (assign (element array (atom_tree index)) (atom_tree value)) then none) base) out.old }
{
    put_target(3, array, base + 3, base + 4, 5, base, follows, out);
    put_atom(index, &mut out[18..]);
    put_atom(value, &mut out[24..]);
}
