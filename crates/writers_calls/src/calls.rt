// The call on what holds its arguments.
ghost use Rattle.std.specs.Prelude.{◌≡◌, ◌++◌, ◌+◌, pos, length};
ghost use Rattle.words.specs.Word.{pick};
ghost use Rattle.words.specs.Over.{over};
ghost use Rattle.language.specs.Trees.{call, assign, variable, express, none, ◌then◌};
ghost use Rattle.language.specs.Decode.{argument_list_at};
ghost use Rattle.language_emission.specs.Emission.{row_of, emit_expression, emit_arguments, emit_items};
ghost use Rattle.measures_table.specs.Parts.{called_in};
ghost use Rattle.writers_rows.specs.Room.{Room};
ghost use Rattle.writers_rows.specs.Atoms.{atom_tree, AtomFits};
ghost use Rattle.writers_steps.specs.Asks.{Writes};
ghost use Rattle.writers_calls.specs.Arguments.{atoms_by};
ghost use Rattle.writers_calls.specs.Asks.{AtomsAsk, CallAsks};

use super::CallRow;
use super::arguments::{argument_value, arguments_taken};
use words::table::number_at;
use writers_rows::KernelAtom;
use writers_rows::assignments::put_target;
use writers_rows::rows::{behind, more, put_atom, put_row};
use writers_steps::atoms::held_atom;
use writers_steps::{WritePosition, WriteSource};

// An argument of a kernel call: its row and its atom's.
fn put_argument(value: KernelAtom, base: usize, follows: bool, out: &mut [i32])
    requires { Room 2 base (length out.old) × AtomFits value }
    ensures { out.new ≡ over (row_of 32 (pos (base + 1)) 0 0 0 (pick follows (base + 2) 0) ++ emit_expression (atom_tree value) (base + 1)) out.old }
{
    put_row(32, base + 1, 0, 0, behind(follows, base + 2), out);
    put_atom(value, &mut out[6..]);
}

// What holds the arguments from a link on, which take `size` rows.
fn put_atoms(
    source: &WriteSource<'_>,
    argument: usize,
    copies: usize,
    level: usize,
    size: usize,
    base: usize,
    out: &mut [i32],
)
    requires { Writes source.now × AtomsAsk source.now.rows.now argument copies level size base (length out.old) }
    ensures { out.new ≡ over (emit_arguments (atoms_by (called_in source.now.rows.now) source.now.store (argument_list_at source.now.rows.now argument) copies level) base) out.old }
{
    if size == 0 {
        return;
    }
    let e = argument_value(source.rows, argument);
    let next = number_at(source.rows, argument, 5);
    let others = copies / 2;
    let above = level + arguments_taken(source, next, others);
    let atom = held_atom(source, e, copies % 2, above);
    let rest = size - 2;
    put_argument(atom, base, more(false, rest), out);
    put_atoms(source, next, others, level, rest, base + 2, &mut out[12..]);
}

// variable := f(atoms): a call of `size` rows on what holds its arguments.
pub fn put_call(
    source: &WriteSource<'_>,
    number: usize,
    called: CallRow,
    copies: usize,
    size: usize,
    at: WritePosition,
    out: &mut [i32],
)
    requires { Writes source.now × CallAsks source.now.rows.now number called.function called.first copies at.level size at.base (length out.old) }
    ensures { out.new ≡ over (emit_items at.follows (express (assign (variable number) (call called.function (atoms_by (called_in source.now.rows.now) source.now.store (argument_list_at source.now.rows.now called.first) copies at.level))) then none) at.base) out.old }
{
    let rest = size - 4;
    put_target(2, number, 0, at.base + 3, size, at.base, at.follows, out);
    put_row(
        31,
        called.function,
        behind(more(false, rest), at.base + 4),
        0,
        0,
        &mut out[18..],
    );
    put_atoms(
        source,
        called.first,
        copies,
        at.level,
        rest,
        at.base + 4,
        &mut out[24..],
    );
}
