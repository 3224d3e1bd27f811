// Check and run of both forms.
ghost use Rattle.std.specs.Prelude.{◌≡◌};
ghost use Rattle.words.specs.Numbers.{verdict_numbers};
ghost use Rattle.words.specs.declared.Form.TheVariants.{Source, Kernel};
ghost use Rattle.program_runs.specs.Acceptance.{AcceptsLegal, NoCauseIfLegal};
ghost use Rattle.program_runs.specs.Runs.{refusal_of, run_result, answer_and_store};

use words::{Refusal, RunAnswer};

// The check of source programs. The second promise is demand 2: the legal programs are accepted, and no others. The third says so in
// numbers: they alone have cause 0.
pub fn check(header: &[i32], rows: &[i32]) -> Result<(), Refusal>
    ensures value { result ≡ refusal_of Source header.now rows.now }
    ensures accepts_legal { AcceptsLegal Source header.now rows.now result }
    ensures no_cause_if_legal { NoCauseIfLegal Source header.now rows.now (verdict_numbers result).cause }
{
    program_runs::check(header, rows)
}

// The check of kernel programs, with the same three promises.
pub fn kernel_check(header: &[i32], rows: &[i32]) -> Result<(), Refusal>
    ensures value { result ≡ refusal_of Kernel header.now rows.now }
    ensures accepts_legal { AcceptsLegal Kernel header.now rows.now result }
    ensures no_cause_if_legal { NoCauseIfLegal Kernel header.now rows.now (verdict_numbers result).cause }
{
    program_runs::kernel_check(header, rows)
}

// Runs a source program on the store: "How a run goes".
pub fn run(
    header: &[i32],
    rows: &[i32],
    store: &mut [i32],
    budget: u32,
) -> Result<RunAnswer, Refusal>
    ensures { answer_and_store result store.new ≡ run_result Source header.now rows.now budget store.old }
{
    program_runs::run(header, rows, store, budget)
}

// Runs a kernel program on the store.
pub fn kernel_run(
    header: &[i32],
    rows: &[i32],
    store: &mut [i32],
    budget: u32,
) -> Result<RunAnswer, Refusal>
    ensures { answer_and_store result store.new ≡ run_result Kernel header.now rows.now budget store.old }
{
    program_runs::kernel_run(header, rows, store, budget)
}
