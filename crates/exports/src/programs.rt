// Check and run of both forms, and the kernel run that a dispatcher sees.
ghost use Rattle.std.specs.Prelude.{◌≡◌};
ghost use Rattle.words.specs.declared.Form.TheVariants.{Source, Kernel};
ghost use Rattle.program_runs.specs.Acceptance.{NoCauseIfLegal};
ghost use Rattle.program_dispatcher.specs.DispatcherRuns.{dispatcher_result};
ghost use Rattle.program_runs.specs.Runs.{refusal_of, run_result};
ghost use Rattle.exports.specs.Numbers.{answer_of, verdict_answer};

use super::Answer;

// The check of source programs. The second promise is demand 2: the legal programs alone have cause 0.
#[unsafe(no_mangle)]
pub extern "C" fn clight_check(header: &[i32], rows: &[i32]) -> Answer
    ensures value { result ≡ verdict_answer (refusal_of Source header.now rows.now) }
    ensures no_cause_if_legal { NoCauseIfLegal Source header.now rows.now result.cause }
{
    clight::runs::check(header, rows).into()
}

// The check of kernel programs, with the same two promises.
#[unsafe(no_mangle)]
pub extern "C" fn clight_kernel_check(header: &[i32], rows: &[i32]) -> Answer
    ensures value { result ≡ verdict_answer (refusal_of Kernel header.now rows.now) }
    ensures no_cause_if_legal { NoCauseIfLegal Kernel header.now rows.now result.cause }
{
    clight::runs::kernel_check(header, rows).into()
}

// Runs a source program on the store.
#[unsafe(no_mangle)]
pub extern "C" fn clight_run(header: &[i32], rows: &[i32], store: &mut [i32], budget: u32) -> Answer
    ensures value { result ≡ answer_of (run_result Source header.now rows.now budget store.old).numbers }
    ensures store_after { store.new ≡ (run_result Source header.now rows.now budget store.old).store }
{
    clight::runs::run(header, rows, store, budget).into()
}

// Runs a kernel program on the store.
#[unsafe(no_mangle)]
pub extern "C" fn clight_kernel_run(
    header: &[i32],
    rows: &[i32],
    store: &mut [i32],
    budget: u32,
) -> Answer
    ensures value { result ≡ answer_of (run_result Kernel header.now rows.now budget store.old).numbers }
    ensures store_after { store.new ≡ (run_result Kernel header.now rows.now budget store.old).store }
{
    clight::runs::kernel_run(header, rows, store, budget).into()
}

// Runs a kernel program on the S words that a dispatcher sees; the answer has no count.
#[unsafe(no_mangle)]
pub extern "C" fn clight_dispatcher_run(
    header: &[i32],
    rows: &[i32],
    words: &mut [i32],
    budget: u32,
) -> Answer
    ensures value { result ≡ answer_of (dispatcher_result header.now rows.now budget words.old).numbers }
    ensures words_after { words.new ≡ (dispatcher_result header.now rows.now budget words.old).words }
{
    clight::dispatcher::dispatcher_run(header, rows, words, budget).into()
}
