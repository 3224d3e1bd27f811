// What all rows are put together by: words, a row and an atom's row written into a table, links to what stands behind, the numbers of operators.
ghost use Rattle.std.specs.Prelude.{◌≡◌, ◌^◌, ◌≤◌, ◌<◌, pos, length};
ghost use Rattle.words.specs.Word.{pick};
ghost use Rattle.language_emission.specs.Emission.{row_of, operator_number};
ghost use Rattle.words.specs.Over.{over};
ghost use Rattle.writers_rows.specs.Room.{more_rows};
ghost use Rattle.writers_rows.specs.Atoms.{atom_row, AtomFits};

use super::KernelAtom;
use words::Operator;
use words_copying::put;

// Writes a row at the start of the table: "kind, a, b, c, d, next". Only a for has a field d, and the kernel has no for.
// The kind is a number, as the words are: each call names one kind, and no code reads it back.
pub fn put_row(kind: usize, a: usize, b: usize, c: usize, next: usize, out: &mut [i32])
    requires { (6 ≤ length out.old) × (kind < 2 ^ 31) × (a < 2 ^ 31) × (b < 2 ^ 31) × (c < 2 ^ 31) × (next < 2 ^ 31) }
    ensures { out.new ≡ over (row_of kind (pos a) b c 0 next) out.old }
{
    put(
        &[kind as i32, a as i32, b as i32, c as i32, 0, next as i32],
        out,
    );
}

// Writes the row of an atom at the start of the table.
pub fn put_atom(atom: KernelAtom, out: &mut [i32])
    requires { (6 ≤ length out.old) × AtomFits atom }
    ensures { out.new ≡ over (atom_row atom) out.old }
{
    match atom {
        KernelAtom::Constant(value) => put(&[1, value, 0, 0, 0, 0], out),
        KernelAtom::Variable(number) => put_row(2, number, 0, 0, 0, out),
    }
}

// The link to what stands behind, if anything does.
pub fn behind(follows: bool, row: usize) -> usize
    ensures { result ≡ pick follows row 0 }
{
    if follows {
        return row;
    }
    0
}

// Whether anything stands behind, where so many rows come first.
pub fn more(follows: bool, rows: usize) -> bool
    ensures { result ≡ more_rows follows rows }
{
    if rows == 0 {
        return follows;
    }
    true
}

// An operator's place in the list of kinds 6 to 16.
pub fn operator_number(operator: Operator) -> usize
    ensures { result ≡ operator_number operator }
{
    match operator {
        Operator::Add => 0,
        Operator::Subtract => 1,
        Operator::Multiply => 2,
        Operator::Divide => 3,
        Operator::Remainder => 4,
        Operator::Less => 5,
        Operator::Greater => 6,
        Operator::LessOrEqual => 7,
        Operator::GreaterOrEqual => 8,
        Operator::Equal => 9,
        Operator::NotEqual => 10,
    }
}
