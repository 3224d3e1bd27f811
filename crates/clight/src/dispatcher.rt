// The run that a dispatcher sees: the ending and the first S words.
ghost use Rattle.std.specs.Prelude.{◌≡◌};
ghost use Rattle.program_dispatcher.specs.DispatcherRuns.{answer_and_words, dispatcher_result};

use words::{Ending, Refusal};

// Runs a kernel program on the S words that a dispatcher sees: "The dispatcher gets the ending and the first S words".
pub fn dispatcher_run(
    header: &[i32],
    rows: &[i32],
    words: &mut [i32],
    budget: u32,
) -> Result<Ending, Refusal>
    ensures { answer_and_words result words.new ≡ dispatcher_result header.now rows.now budget words.old }
{
    program_dispatcher::dispatcher_run(header, rows, words, budget)
}
