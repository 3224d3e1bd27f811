// Flat lists: their writer, their check, their run. Change 10.
ghost use Rattle.std.specs.Prelude.{◌≡◌};
ghost use Rattle.flat.specs.Refusal.{refusal as flat_refusal};
ghost use Rattle.flat.specs.Results.{answer_and_store, flat_result};
ghost use Rattle.flattener.specs.Flattening.{answer_and_list, flatten_result, WritesList};

use words::{Refusal, RunAnswer};

// Writes the flat list of a kernel program, under its header, and answers how many words it has: the kernel check's causes, 25 for
// functions, then 10. The second promise is about the words that were written: the list's own check takes them, they are exactly as many as
// docs/FLAT.md says, and the kernel run and the flat run on equal stores share their fate.
pub fn flatten(header: &[i32], rows: &[i32], list: &mut [i32]) -> Result<usize, Refusal>
    ensures list_after { answer_and_list result list.new ≡ flatten_result header.now rows.now list.old }
    ensures writes_list { WritesList header.now rows.now result list.new }
{
    flattener::flatten(header, rows, list)
}

// The list's own check: causes 1, 2, then 3, 4 and 6 with the line from 0.
pub fn flat_check(header: &[i32], list: &[i32]) -> Result<(), Refusal>
    ensures { result ≡ flat_refusal header.now list.now }
{
    flat_check::check(header, list)
}

// Runs a flat list on the store, "budget counted in lines".
pub fn flat_run(
    header: &[i32],
    list: &[i32],
    store: &mut [i32],
    budget: u32,
) -> Result<RunAnswer, Refusal>
    ensures { answer_and_store result store.new ≡ flat_result header.now list.now budget store.old }
{
    flat_machine::whole::flat_run(header, list, store, budget)
}
