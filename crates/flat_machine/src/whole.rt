// The run of a list.
ghost use Rattle.std.specs.Prelude.{◌≡◌, map, length};
ghost use Rattle.words.specs.Word.{natural as natural_of};
ghost use Rattle.words.specs.Layout.{header_store};
ghost use Rattle.words.specs.declared.Form.TheVariants.{Kernel};
ghost use Rattle.machine_operations.specs.Bounds.{bounds_from, layout_from};
ghost use Rattle.machine.specs.Whole.{finished_of};
ghost use Rattle.flat.specs.Lines.{run_from};
ghost use Rattle.flat.specs.Words.{lines_of};
ghost use Rattle.flat.specs.Refusal.{refusal as refusal_of};
ghost use Rattle.flat.specs.Results.{run_list, answer_and_store, flat_after, flat_result};
ghost use Rattle.flat_steps.specs.Steps.{Setting};
ghost use Rattle.flat_machine.specs.Whole.{Startable};

use flat_check::check;
use flat_steps::lines::make;
use machine::whole::fill_bounds;
use words::layout::{header_store, leading};
use words::table::natural;
use words::{Cause, Ending, Form, Refusal, RunAnswer};

// The lines from line 0 on, until the end, a fault, or a line more than the budget.
fn run_lines(list: &[i32], bounds: &[usize], store: &mut [i32], budget: u32) -> RunAnswer
    requires { Setting bounds.now list.now (length store.old) }
    ensures { finished_of result store.new ≡ run_from (layout_from bounds.now) (lines_of list.now) budget 0 0 store.old }
{
    let lines = list.len() / 5;
    let mut left = budget;
    let mut line: usize = 0;
    while line < lines {
        if left == 0 {
            return RunAnswer {
                ending: Ending::Spent,
                count: budget,
            };
        }
        left -= 1;
        let step = make(list, bounds, line, store);
        match step {
            Ok(next) => line = next,
            Err(sort) => {
                return RunAnswer {
                    ending: Ending::Fault(sort),
                    count: budget - left,
                };
            }
        }
    }
    RunAnswer {
        ending: Ending::Plain,
        count: budget - left,
    }
}

// The same, with the bounds written into what is lent for them.
fn start(
    lengths: &[i32],
    variables: usize,
    bounds: &mut [usize],
    list: &[i32],
    store: &mut [i32],
    budget: u32,
) -> RunAnswer
    requires { Startable lengths.now variables bounds.old list.now (length store.old) }
    ensures { finished_of result store.new ≡ run_from (layout_from (bounds_from variables (map natural_of lengths.now))) (lines_of list.now) budget 0 0 store.old }
{
    fill_bounds(lengths, variables, bounds);
    run_lines(list, &*bounds, store, budget)
}

// Runs an accepted list on a store of its size, for a caller that has the check's answer: nothing is tested again.
pub fn run_accepted(header: &[i32], list: &[i32], store: &mut [i32], budget: u32) -> RunAnswer
    requires list_value { refusal_of header.now list.now ≡ (Ok tt) }
    requires store_len { length store.old ≡ header_store Kernel header.now }
    ensures { finished_of result store.new ≡ run_list header.now list.now budget store.old }
{
    let first = leading(Form::Kernel);
    let n = header.len() - first + 1;
    let mut bounds: [usize; 33] = [0; 33];
    start(
        &header[first..],
        natural(header[0]),
        &mut bounds[..n],
        list,
        store,
        budget,
    )
}

// An accepted list on a store of any size: cause 11, then the run.
fn run_on_store(
    header: &[i32],
    list: &[i32],
    store: &mut [i32],
    budget: u32,
) -> Result<RunAnswer, Refusal>
    requires { refusal_of header.now list.now ≡ (Ok tt) }
    ensures { answer_and_store result store.new ≡ flat_after (Ok tt) header.now list.now budget store.old }
{
    if store.len() != header_store(Form::Kernel, header) {
        return Err(Refusal {
            cause: Cause::StoreSize,
            place: 0,
        });
    }
    Ok(run_accepted(header, list, store, budget))
}

// Runs a flat list on the store, "budget counted in lines".
pub fn flat_run(
    header: &[i32],
    list: &[i32],
    store: &mut [i32],
    budget: u32,
) -> Result<RunAnswer, Refusal>
    ensures { answer_and_store result store.new ≡ flat_result header.now list.now budget store.old }
{
    check(header, list)?;
    run_on_store(header, list, store, budget)
}
