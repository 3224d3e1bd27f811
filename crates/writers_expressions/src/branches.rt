// What and, or and a conditional choose between.
ghost use Rattle.std.specs.Prelude.{◌≡◌, false, ◌+◌, ◌≤◌, ◌<◌, length};
ghost use Rattle.words.specs.Table.{row_count};
ghost use Rattle.language.specs.Decode.{expression_at};
ghost use Rattle.translation.specs.Translate.{atom_of};
ghost use Rattle.language_emission.specs.Emission.{emit_items};
ghost use Rattle.language_shapes.specs.Functions.{is_call};
ghost use Rattle.measures_table.specs.Measures.{Measured};
ghost use Rattle.measures_table.specs.Parts.{called_in};
ghost use Rattle.words.specs.Over.{over};
ghost use Rattle.writers_rows.specs.Room.{Room};
ghost use Rattle.writers_rows.specs.Atoms.{AtomFits};
ghost use Rattle.writers_expressions.specs.Code.{finish_code};
ghost use Rattle.writers_steps.specs.Asks.{Writes};
ghost use Rattle.writers_expressions.specs.Asks.{end_of, number_branch, finish_size, branch_size as size_of, ChoiceAt};

use super::{Branch, End};
use language_shapes::rows::expression_at;
use language_shapes::{ChoiceShape, ExpressionShape};
use measures_expressions::holders::taken_at;
use translation::Use;
use words::Operator;
use writers_rows::KernelAtom;
use writers_rows::assignments::{put_binary, put_copy};
use writers_steps::WriteSource;
use writers_steps::atoms::{atom_at, operand_size};

// A branch that puts a number into the result's temporary.
fn number_branch(v: i32) -> Branch
    ensures { result ≡ number_branch v }
{
    Branch {
        row: 0,
        end: End::Copy,
        atom: KernelAtom::Constant(v),
    }
}

// How a branch of a conditional ends, by the value of the expression at a row: one in a temporary stays.
fn end_at(source: &WriteSource<'_>, row: usize) -> End
    requires { Measured source.now.rows.now source.now.table.now × (row < row_count source.now.rows.now) }
    ensures { result ≡ end_of (atom_of (called_in source.now.rows.now) (expression_at source.now.rows.now row)) }
{
    if taken_at(source.rows, source.table, row) == 1 {
        return End::Stays;
    }
    End::Copy
}

// What the code of the expression at a row, which is no call, ends with.
pub fn choice_at(
    source: &WriteSource<'_>,
    row: usize,
    level: usize,
) -> Option<(KernelAtom, Branch, Branch)>
    requires { Writes source.now × (row < row_count source.now.rows.now) × (level ≤ 2048) × (is_call (expression_at source.now.rows.now row) ≡ false) }
    ensures { ChoiceAt source.now.store source.now.rows.now row level result }
{
    let shape = expression_at(source.rows, row);
    match shape {
        ExpressionShape::Number(_) => None,
        ExpressionShape::Read(_) => None,
        ExpressionShape::Operation(_) => None,
        ExpressionShape::Choice(choice) => match choice {
            ChoiceShape::And(a, b) => {
                let test = atom_at(source, a, level);
                let yes = Branch {
                    row: b,
                    end: End::Truth,
                    atom: atom_at(source, b, level),
                };
                Some((test, yes, number_branch(0)))
            }
            ChoiceShape::Or(a, b) => {
                let test = atom_at(source, a, level);
                let no = Branch {
                    row: b,
                    end: End::Truth,
                    atom: atom_at(source, b, level),
                };
                Some((test, number_branch(1), no))
            }
            ChoiceShape::Conditional(t, a, b) => {
                let test = atom_at(source, t, level);
                let yes = Branch {
                    row: a,
                    end: end_at(source, a),
                    atom: atom_at(source, a, level),
                };
                let no = Branch {
                    row: b,
                    end: end_at(source, b),
                    atom: atom_at(source, b, level),
                };
                Some((test, yes, no))
            }
        },
        // is no call
        ExpressionShape::Call(_, _) => None,
    }
}

// The rows of the end of a branch.
pub fn finish_size(end: End) -> usize
    ensures { result ≡ finish_size end }
{
    match end {
        End::Truth => 6,
        End::Copy => 4,
        End::Stays => 0,
    }
}

// The rows of a branch.
pub fn branch_size(source: &WriteSource<'_>, branch: Branch) -> usize
    requires { Measured source.now.rows.now source.now.table.now × (branch.row < row_count source.now.rows.now) × (size_of source.now.rows.now branch ≤ 40980) }
    ensures { result ≡ size_of source.now.rows.now branch }
{
    let end = branch.end;
    1 + operand_size(source, branch.row, Use::Wanted) + finish_size(end)
}

// The end of a branch: its atom into the temporary of a level, where it is not there already.
pub fn put_finish(
    end: End,
    atom: KernelAtom,
    store: usize,
    level: usize,
    base: usize,
    out: &mut [i32],
)
    requires { Room (finish_size end) base (length out.old) × AtomFits atom × (store + level < 65536) }
    ensures { out.new ≡ over (emit_items false (finish_code store end atom level) base) out.old }
{
    let number = store + level;
    match end {
        End::Truth => {
            let zero = KernelAtom::Constant(0);
            put_binary(number, Operator::NotEqual, atom, zero, base, false, out);
        }
        End::Copy => put_copy(number, atom, base, false, out),
        End::Stays => {}
    }
}
