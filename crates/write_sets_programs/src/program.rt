// What any row of a program can write: the sets of its rows joined, and the words of its declarations. The declared words begin at `store`.
ghost use Rattle.std.specs.Prelude.{◌<◌};
ghost use Rattle.words.specs.Table.{row_count};
ghost use Rattle.language_shapes.specs.Source.{NamesFrom, Source};
ghost use Rattle.write_sets_rows.specs.WriteSets.{SetIs, Sets};
ghost use Rattle.write_sets_programs.specs.Arrays.{ArraysAre, ArraysFrom};
ghost use Rattle.write_sets_programs.specs.ProgramWrites.{declares, program_writes, program_writes_array, WritesAre};

use super::Writes;
use super::arrays::fill_arrays;
use words::declarations::is_declaration;
use words::table::number_at;
use write_sets::WriteSet;
use write_sets::arrays::join_arrays;
use write_sets_functions::functions::gather_functions;
use write_sets_rows::writes::fill_sets;

// The word of a row that is a declaration.
fn declared_set(store: usize, rows: &[i32], row: usize) -> WriteSet
    requires { Source rows.now × NamesFrom store rows.now × (row < row_count rows.now) }
    ensures { SetIs store result (declares rows.now row) }
{
    if is_declaration(rows, row) {
        return WriteSet::single(store, number_at(rows, row, 1));
    }
    WriteSet::nothing()
}

fn any_variables(store: usize, rows: &[i32], sets: &[WriteSet]) -> WriteSet
    requires { Sets store rows.now sets.now }
    ensures { SetIs store result (program_writes rows.now) }
{
    let mut any = WriteSet::nothing();
    for row in 0..rows.len() / 6 {
        any = any.join(sets[row].join(declared_set(store, rows, row)));
    }
    any
}

fn any_arrays(rows: &[i32], arrays: &[u32]) -> u32
    requires { ArraysFrom rows.now arrays.now 0 }
    ensures { ArraysAre result (program_writes_array rows.now) }
{
    let mut any: u32 = 0;
    for word in &arrays[..rows.len() / 6] {
        any = join_arrays(any, *word);
    }
    any
}

fn variables_written(store: usize, rows: &[i32]) -> WriteSet
    requires { Source rows.now × NamesFrom store rows.now }
    ensures { SetIs store result (program_writes rows.now) }
{
    let mut sets = [WriteSet::nothing(); 2048];
    gather_functions(store, rows, &mut sets);
    fill_sets(store, rows, &mut sets);
    any_variables(store, rows, &sets)
}

fn arrays_written(rows: &[i32]) -> u32
    requires { Source rows.now }
    ensures { ArraysAre result (program_writes_array rows.now) }
{
    let mut arrays = [0u32; 2048];
    fill_arrays(rows, &mut arrays);
    any_arrays(rows, &arrays)
}

// What the program can write.
pub fn program_writes(store: usize, rows: &[i32]) -> Writes
    requires { Source rows.now × NamesFrom store rows.now }
    ensures { WritesAre store result rows.now }
{
    let variables = variables_written(store, rows);
    let arrays = arrays_written(rows);
    Writes { variables, arrays }
}
