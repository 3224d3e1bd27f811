// What a rule would do to a store, told beforehand.
ghost use Rattle.std.specs.Prelude.{◌≡◌};
ghost use Rattle.program_previews.specs.Previews.{answer_and_words, preview_result};

use program_previews::PreviewAnswer;
use words::Refusal;

// Tells what a run of a source program on the store would do: the answer of that run, and in the first S words of the scratch the store
// that it would leave.
pub fn preview(
    header: &[i32],
    rows: &[i32],
    store: &[i32],
    budget: u32,
    scratch: &mut [i32],
) -> Result<PreviewAnswer, Refusal>
    ensures { answer_and_words result store.now scratch.new ≡ preview_result header.now rows.now budget store.now scratch.old }
{
    program_previews::preview(header, rows, store, budget, scratch)
}
