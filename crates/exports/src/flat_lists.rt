// Writer and run of flat lists.
ghost use Rattle.std.specs.Prelude.{◌≡◌};
ghost use Rattle.flat.specs.Results.{flat_result};
ghost use Rattle.flattener.specs.Flattening.{flatten_result};
ghost use Rattle.exports.specs.Numbers.{answer_of, ListsIfDone};

use super::Answer;

// Writes the flat list of a kernel program. The last promise is about the words that are written.
#[unsafe(no_mangle)]
pub extern "C" fn clight_flatten(header: &[i32], rows: &[i32], list: &mut [i32]) -> Answer
    ensures value { result ≡ answer_of (flatten_result header.now rows.now list.old).numbers }
    ensures list_after { list.new ≡ (flatten_result header.now rows.now list.old).list }
    ensures lists_if_done { ListsIfDone header.now rows.now result list.new }
{
    clight::flat_lists::flatten(header, rows, list).into()
}

// Runs a flat list on the store; the count is of lines.
#[unsafe(no_mangle)]
pub extern "C" fn clight_flat_run(
    header: &[i32],
    list: &[i32],
    store: &mut [i32],
    budget: u32,
) -> Answer
    ensures value { result ≡ answer_of (flat_result header.now list.now budget store.old).numbers }
    ensures store_after { store.new ≡ (flat_result header.now list.now budget store.old).store }
{
    clight::flat_lists::flat_run(header, list, store, budget).into()
}
