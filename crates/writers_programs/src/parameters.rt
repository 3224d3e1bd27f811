// The parameters of a function.
ghost use Rattle.std.specs.Prelude.{◌≡◌, length};
ghost use Rattle.words.specs.Over.{over};
ghost use Rattle.language.specs.Decode.{parameter_list_at};
ghost use Rattle.language_emission.specs.Emission.{emit_parameters};
ghost use Rattle.writers_programs.specs.Asks.{ParametersAsk};

use words::table::number_at;
use writers_rows::rows::{behind, more, put_row};

// The rows of the parameters from a link on, which are `count`.
pub fn put_parameters(rows: &[i32], parameter: usize, count: usize, base: usize, out: &mut [i32])
    requires { ParametersAsk rows.now parameter count base (length out.old) }
    ensures { out.new ≡ over (emit_parameters (parameter_list_at rows.now parameter) base) out.old }
{
    if count == 0 {
        return;
    }
    let rest = count - 1;
    let word = number_at(rows, parameter, 1);
    put_row(58, word, 0, 0, behind(more(false, rest), base + 1), out);
    put_parameters(
        rows,
        number_at(rows, parameter, 5),
        rest,
        base + 1,
        &mut out[6..],
    );
}
