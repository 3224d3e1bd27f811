// The arguments of a call, and the temporaries that they take.
ghost use Rattle.std.specs.Prelude.{◌≡◌, ◌<◌};
ghost use Rattle.words.specs.Table.{row_count};
ghost use Rattle.language.specs.Calls.{argument_count};
ghost use Rattle.language.specs.Decode.{expression_at, argument_list_at};
ghost use Rattle.language_shapes.specs.Source.{Source};
ghost use Rattle.translation.specs.Translate.{atom_of, taken};
ghost use Rattle.translation.specs.Holding.{held_by};
ghost use Rattle.measures_table.specs.Parts.{called_in};
ghost use Rattle.measures_table.specs.Measures.{Measured};
ghost use Rattle.writers_calls.specs.Asks.{Passing, CountIs, TakenIs};

use language_shapes::rows::argument_at;
use measures_expressions::holders::taken_at;
use words::table::number_at;
use writers_steps::WriteSource;

// The row of the expression of the argument at a link.
pub fn argument_value(rows: &[i32], argument: usize) -> usize
    requires { Source rows.now × (argument < row_count rows.now) × (0 < argument_count (argument_list_at rows.now argument)) }
    ensures { Passing rows.now argument result }
{
    let shape = argument_at(rows, argument);
    match shape {
        Some(e) => e,
        None => 0,
    }
}

// How many arguments there are from a link on.
pub fn argument_count(rows: &[i32], argument: usize) -> usize
    requires { Source rows.now × (argument < row_count rows.now) }
    ensures { CountIs rows.now argument result }
{
    if argument == 0 {
        return 0;
    }
    let next = number_at(rows, argument, 5);
    let shape = argument_at(rows, argument);
    match shape {
        Some(_) => argument_count(rows, next) + 1,
        None => 0,
    }
}

// How many temporaries the value of the expression at a row takes, where it is copied if `copied` is 1.
fn held_taken(source: &WriteSource<'_>, row: usize, copied: usize) -> usize
    requires { Measured source.now.rows.now source.now.table.now × (row < row_count source.now.rows.now) }
    ensures { result ≡ taken (held_by copied (atom_of (called_in source.now.rows.now) (expression_at source.now.rows.now row))) }
{
    if copied == 1 {
        return 1;
    }
    taken_at(source.rows, source.table, row)
}

// How many temporaries the arguments from a link on take.
pub fn arguments_taken(source: &WriteSource<'_>, argument: usize, copies: usize) -> usize
    requires { Measured source.now.rows.now source.now.table.now × (argument < row_count source.now.rows.now) }
    ensures { TakenIs source.now.rows.now argument copies result }
{
    if argument == 0 {
        return 0;
    }
    let next = number_at(source.rows, argument, 5);
    let shape = argument_at(source.rows, argument);
    match shape {
        Some(e) => {
            let behind = arguments_taken(source, next, copies / 2);
            behind + held_taken(source, e, copies % 2)
        }
        None => 0,
    }
}
