// The writer of a program.
ghost use Rattle.std.specs.Prelude.{◌≡◌, length};
ghost use Rattle.language.specs.Program.{contents};
ghost use Rattle.language_emission.specs.Emission.{emit};
ghost use Rattle.words.specs.Over.{over};
ghost use Rattle.writers_programs.specs.Asks.{ProgramAsks, kernel_program};

use super::definitions::write_front;
use words::table::number_at;
use writers_rows::control::put_block;
use writers_rows::rows::{behind, more};
use writers_steps::WriteSource;

// Writes the translation of a program, whose list takes `size` kernel rows and `levels` temporaries, those from the store word `store` on.
pub fn write_program(
    rows: &[i32],
    table: &[usize],
    store: usize,
    size: usize,
    levels: usize,
    out: &mut [i32],
)
    requires { ProgramAsks rows.now table.now store size levels (length out.old) }
    ensures { out.new ≡ over (emit (kernel_program store (contents rows.now))) out.old }
{
    let list = number_at(rows, 0, 1);
    put_block(behind(more(false, size), 1), 0, out);
    let source = WriteSource { rows, table, store };
    write_front(&source, list, size, levels, 1, 1, &mut out[6..]);
}
