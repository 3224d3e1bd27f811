// The writer of declarations.
ghost use Rattle.std.specs.Prelude.{◌≡◌, length};
ghost use Rattle.language_emission.specs.Emission.{emit_items};
ghost use Rattle.language.specs.Decode.{expression_at};
ghost use Rattle.writers_steps.specs.Asks.{Writes};
ghost use Rattle.measures_table.specs.Parts.{called_in};
ghost use Rattle.words.specs.Over.{over};
ghost use Rattle.writers.specs.Asks.{DeclareAsks};
ghost use Rattle.writers.specs.Code.{declared_code};

use measures_expressions::holders::store_rows;
use translation::Use;
use writers_expressions::expressions::write_expression;
use writers_rows::rows::more;
use writers_steps::atoms::operand_size;
use writers_steps::straight::put_variable;
use writers_steps::{WritePosition, WriteSource};

// A declaration: the value at a row, stored in the word of the object.
pub fn write_declare(
    source: &WriteSource<'_>,
    number: usize,
    value: usize,
    base: usize,
    follows: bool,
    out: &mut [i32],
)
    requires { Writes source.now × DeclareAsks source.now.rows.now number value base (length out.old) }
    ensures { out.new ≡ over (emit_items follows (declared_code (called_in source.now.rows.now) source.now.store number (expression_at source.now.rows.now value)) base) out.old }
{
    let n = operand_size(source, value, Use::Stored(number));
    let then = more(follows, store_rows(source.rows, value));
    write_expression(
        source,
        value,
        Use::Stored(number),
        WritePosition {
            level: 0,
            base,
            follows: then,
        },
        out,
    );
    put_variable(
        source,
        number,
        value,
        Use::Dropped,
        WritePosition {
            level: 0,
            base: base + n,
            follows,
        },
        &mut out[6 * n..],
    );
}
