// The run of a program.
ghost use Rattle.std.specs.Prelude.{◌≡◌, map, ◌+◌, ◌≤◌, length};
ghost use Rattle.words.specs.Table.{row_count};
ghost use Rattle.words.specs.Word.{natural as natural_of};
ghost use Rattle.words.specs.Layout.{sum};
ghost use Rattle.words.specs.declared.Form.TheVariants.{Source, Kernel};
ghost use Rattle.computation.specs.Remaining.{spend};
ghost use Rattle.language.specs.Functions.{function_count};
ghost use Rattle.language.specs.Program.{contents, run_table};
ghost use Rattle.machine_operations.specs.Bounds.{bounds_from};
ghost use Rattle.machine_flows.specs.Flows.{ran};
ghost use Rattle.machine.specs.Whole.{ending_of_answer, finished_of, whole_at, Runnable, Startable, RoomFor};

use machine_executor::statements::exec;
use machine_flows::functions::{fill_functions, function_count};
use machine_operations::SPENT;
use machine_operations::answers::{beyond, operand};
use words::layout::leading;
use words::table::natural;
use words::{Ending, Form, RunAnswer};
use words_endings::fault_numbered;

// Rooms for 33 bounds and the rows of up to 64 functions, of as many as a source program has rows, and as a kernel program.
const FEW: usize = 33 + 64;

const SOME: usize = 33 + 2048;

const MANY: usize = 33 + 40980;

// The bounds of the arrays: where each begins, and where the last one ends.
pub fn fill_bounds(lengths: &[i32], variables: usize, bounds: &mut [usize])
    requires { (length bounds.old ≡ length lengths.now + 1) × (variables + sum (map natural_of lengths.now) ≤ 8192) }
    ensures { bounds.new ≡ bounds_from variables (map natural_of lengths.now) }
{
    let mut total = variables;
    for i in 0..lengths.len() {
        bounds[i] = total;
        total += natural(lengths[i]);
    }
    bounds[lengths.len()] = total;
}

// Why the run with this answer ended.
fn ending_of(answer: i64) -> Ending
    ensures { result ≡ ending_of_answer answer }
{
    match operand(answer) {
        Some(_) => Ending::Plain,
        None if answer == SPENT => Ending::Spent,
        None => Ending::Fault(fault_numbered(beyond(answer))),
    }
}

// The statement at row 0, with the bounds and the rows of the functions written into what is lent for them.
fn start(
    lengths: &[i32],
    variables: usize,
    bounds: &mut [usize],
    rows: &[i32],
    store: &mut [i32],
    left: &mut u32,
) -> i64
    requires { Startable lengths.now variables (length bounds.old) rows.now (length store.old) }
    ensures { ran result left.new store.new ≡ spend (whole_at lengths.now variables rows.now) left.old store.old }
{
    let n = lengths.len() + 1;
    fill_bounds(lengths, variables, &mut bounds[..n]);
    fill_functions(rows, &mut bounds[n..]);
    exec(&*rows, &*bounds, 0, store, left)
}

// The run in a room with places for the bounds and the rows of so many functions.
fn run_in(
    form: Form,
    header: &[i32],
    rows: &[i32],
    store: &mut [i32],
    budget: u32,
    functions: usize,
    room: &mut [usize],
) -> RunAnswer
    requires { RoomFor form header.now rows.now store.old functions (length room.old) }
    ensures { finished_of result store.new ≡ run_table form header.now rows.now budget store.old }
{
    let first = leading(form);
    let n = header.len() - first + 1 + functions;
    let mut left = budget;
    let answer = start(
        &header[first..],
        natural(header[0]),
        &mut room[..n],
        rows,
        store,
        &mut left,
    );
    let count = budget - left;
    RunAnswer {
        ending: ending_of(answer),
        count,
    }
}

// The run in a room of N places, which stands in this frame: for so many functions less 33.
fn run_within<const N: usize>(
    form: Form,
    header: &[i32],
    rows: &[i32],
    store: &mut [i32],
    budget: u32,
    functions: usize,
) -> RunAnswer
    requires room { RoomFor form header.now rows.now store.old functions N }
    requires small { N ≤ 41013 }
    ensures { finished_of result store.new ≡ run_table form header.now rows.now budget store.old }
{
    let mut room: [usize; N] = [0; N];
    run_in(form, header, rows, store, budget, functions, &mut room)
}

// The smaller room that will do.
fn run_counted(
    form: Form,
    header: &[i32],
    rows: &[i32],
    store: &mut [i32],
    budget: u32,
    functions: usize,
) -> RunAnswer
    requires { Runnable form header.now rows.now store.old × (functions ≡ function_count (contents rows.now)) × (functions ≤ 2048) }
    ensures { finished_of result store.new ≡ run_table form header.now rows.now budget store.old }
{
    if functions <= 64 {
        return run_within::<FEW>(form, header, rows, store, budget, functions);
    }
    run_within::<SOME>(form, header, rows, store, budget, functions)
}

// The run of a source table. It stands apart from the kernel's, so that the largest room is in no frame of it.
pub fn run_source_table(header: &[i32], rows: &[i32], store: &mut [i32], budget: u32) -> RunAnswer
    requires runs { Runnable Source header.now rows.now store.old }
    requires few { row_count rows.now ≤ 2048 }
    ensures { finished_of result store.new ≡ run_table Source header.now rows.now budget store.old }
{
    let functions = function_count(rows);
    run_counted(Form::Source, header, rows, store, budget, functions)
}

// The run of a kernel table.
pub fn run_kernel_table(header: &[i32], rows: &[i32], store: &mut [i32], budget: u32) -> RunAnswer
    requires { Runnable Kernel header.now rows.now store.old }
    ensures { finished_of result store.new ≡ run_table Kernel header.now rows.now budget store.old }
{
    let functions = function_count(rows);
    if functions <= 2048 {
        return run_counted(Form::Kernel, header, rows, store, budget, functions);
    }
    run_within::<MANY>(Form::Kernel, header, rows, store, budget, functions)
}

// The run of a table of either form with a budget.
pub fn run(form: Form, header: &[i32], rows: &[i32], store: &mut [i32], budget: u32) -> RunAnswer
    requires { Runnable form header.now rows.now store.old }
    ensures { finished_of result store.new ≡ run_table form header.now rows.now budget store.old }
{
    let functions = function_count(rows);
    if functions <= 2048 {
        return run_counted(form, header, rows, store, budget, functions);
    }
    run_within::<MANY>(form, header, rows, store, budget, functions)
}
