// The writer of returns.
ghost use Rattle.std.specs.Prelude.{◌≡◌, length};
ghost use Rattle.language_emission.specs.Emission.{emit_items};
ghost use Rattle.language.specs.Decode.{part_at};
ghost use Rattle.measures_table.specs.Parts.{called_in};
ghost use Rattle.writers_steps.specs.Asks.{Writes};
ghost use Rattle.words.specs.Over.{over};
ghost use Rattle.writers.specs.Asks.{ReturnAsks};
ghost use Rattle.writers.specs.Code.{returned_code};

use translation::Use;
use writers_expressions::expressions::write_expression;
use writers_rows::KernelAtom;
use writers_rows::control::put_return;
use writers_steps::atoms::{atom_at, operand_size};
use writers_steps::{WritePosition, WriteSource};

// A return of the value at a link, or of 0 where it is absent.
pub fn write_return(
    source: &WriteSource<'_>,
    value: usize,
    base: usize,
    follows: bool,
    out: &mut [i32],
)
    requires { Writes source.now × ReturnAsks source.now.rows.now value base (length out.old) }
    ensures { out.new ≡ over (emit_items follows (returned_code (called_in source.now.rows.now) source.now.store (part_at source.now.rows.now value)) base) out.old }
{
    if value == 0 {
        put_return(KernelAtom::Constant(0), base, follows, out);
        return;
    }
    let n = operand_size(source, value, Use::Wanted);
    let atom = atom_at(source, value, 0);
    write_expression(
        source,
        value,
        Use::Wanted,
        WritePosition {
            level: 0,
            base,
            follows: true,
        },
        out,
    );
    put_return(atom, base + n, follows, &mut out[6 * n..]);
}
