// The writers of definitions and of a program's list, which call each other. `size` and `levels` are the kernel rows and the levels of what is
// still to write.
ghost use Rattle.std.specs.Prelude.{◌≡◌, false, length};
ghost use Rattle.words.specs.Over.{over};
ghost use Rattle.language.specs.Trees.{define};
ghost use Rattle.language.specs.Decode.{block_items, statement_at, list_at, parameter_list_at};
ghost use Rattle.translation.specs.Translate.{program_code};
ghost use Rattle.language_emission.specs.Emission.{emit_items};
ghost use Rattle.measures_table.specs.Parts.{called_in};
ghost use Rattle.writers_steps.specs.Asks.{Writes};
ghost use Rattle.writers_programs.specs.Asks.{FrontAsks, FunctionAsks};

use super::lists::{list_labels, list_levels};
use super::parameters::put_parameters;
use measures::program::parameter_count;
use words::table::number_at;
use write_sets_functions::definitions::is_definition;
use writers::blocks::{write_block, write_list};
use writers::lists::list_size;
use writers::{Exits, StatementPosition};
use writers_rows::rows::{behind, more, put_row};
use writers_steps::WriteSource;

// Outside of all loops.
const OUTSIDE: Exits = Exits {
    breaking: 0,
    continuing: 0,
};

// The code of a program from the item at a link on: its definitions, and then its main part.
#[cycle(write_functions)]
pub fn write_front(
    source: &WriteSource<'_>,
    item: usize,
    size: usize,
    levels: usize,
    label: usize,
    base: usize,
    out: &mut [i32],
)
    requires { Writes source.now × FrontAsks source.now.rows.now source.now.store item size levels label base (length out.old) }
    ensures { out.new ≡ over (emit_items false (program_code (called_in source.now.rows.now) source.now.store (list_at source.now.rows.now item) label) base) out.old }
{
    if is_definition(source.rows, item) {
        let number = number_at(source.rows, item, 1);
        let parameters = number_at(source.rows, item, 2);
        let body = number_at(source.rows, item, 3);
        let next = number_at(source.rows, item, 5);
        write_function(
            source, number, parameters, body, next, size, levels, label, base, out,
        );
        return;
    }
    write_list(
        source,
        item,
        StatementPosition {
            exits: OUTSIDE,
            label,
            base,
        },
        false,
        out,
    );
}

// The definition of a function, whose block is the row `body`, and then the code from the link `next` on. Its temporaries begin above those of what may
// call it.
#[cycle(write_functions)]
fn write_function(
    source: &WriteSource<'_>,
    number: usize,
    parameters: usize,
    body: usize,
    next: usize,
    size: usize,
    levels: usize,
    label: usize,
    base: usize,
    out: &mut [i32],
)
    requires { Writes source.now × FunctionAsks source.now.rows.now source.now.store number parameters body next size levels label base (length out.old) }
    ensures { out.new ≡ over (emit_items false (program_code (called_in source.now.rows.now) source.now.store (define number (parameter_list_at source.now.rows.now parameters) (block_items (statement_at source.now.rows.now body)) (list_at source.now.rows.now next)) label) base) out.old }
{
    let list = number_at(source.rows, body, 1);
    let count = parameter_count(source.rows, parameters);
    let own = 1 + count;
    let n = own + 1 + list_size(source, list);
    let rest = size - n;
    let above = levels - list_levels(source, list);
    let from = label + list_labels(source, list);
    put_row(
        59,
        number,
        behind(more(false, count), base + 1),
        base + own,
        behind(more(false, rest), base + n),
        out,
    );
    put_parameters(source.rows, parameters, count, base + 1, &mut out[6..]);
    let inside = WriteSource {
        rows: source.rows,
        table: source.table,
        store: source.store + above,
    };
    write_block(
        &inside,
        list,
        StatementPosition {
            exits: OUTSIDE,
            label,
            base: base + own,
        },
        false,
        &mut out[6 * own..],
    );
    write_front(source, next, rest, above, from, base + n, &mut out[6 * n..]);
}
