// What a run would do to a store, told beforehand.
ghost use Rattle.std.specs.Prelude.{◌≡◌};
ghost use Rattle.program_previews.specs.Previews.{preview_result};
ghost use Rattle.exports.specs.Numbers.{preview_answer};

use super::PreviewAnswer;

// Tells what a run of a source program on the store would do; the store that it would leave goes to the start of the scratch.
#[unsafe(no_mangle)]
pub extern "C" fn clight_preview(
    header: &[i32],
    rows: &[i32],
    store: &[i32],
    budget: u32,
    scratch: &mut [i32],
) -> PreviewAnswer
    ensures value { result ≡ preview_answer (preview_result header.now rows.now budget store.now scratch.old).numbers (preview_result header.now rows.now budget store.now scratch.old).tally }
    ensures store_value { store.now ≡ (preview_result header.now rows.now budget store.now scratch.old).store }
    ensures scratch_after { scratch.new ≡ (preview_result header.now rows.now budget store.now scratch.old).scratch }
{
    clight::previews::preview(header, rows, store, budget, scratch).into()
}
