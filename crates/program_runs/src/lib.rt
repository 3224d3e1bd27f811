// Check and run of both forms.
#![tactic(auto)]

ghost use Rattle.std.specs.Prelude.{◌≡◌, length};
ghost use Rattle.words.specs.Layout.{store_words};
ghost use Rattle.words.specs.Numbers.{verdict_numbers};
ghost use Rattle.words.specs.declared.Form.TheVariants.{Source, Kernel};
ghost use Rattle.language_programs.specs.Program.{run_program};
ghost use Rattle.machine.specs.Whole.{finished_of};
ghost use Rattle.program_runs.specs.Acceptance.{AcceptsLegal, NoCauseIfLegal};
ghost use Rattle.program_runs.specs.Runs.{refusal_of, run_result, run_after, answer_and_store};

use accepted_rows::resolve_accepted;
use machine::whole::{run_kernel_table, run_source_table};
use words::layout::{store_size, store_words};
use words::{Cause, Form, Refusal, RunAnswer};

// The check of source programs. The second promise is demand 2: the legal programs are accepted, and no others. The third says so in
// numbers: they alone have cause 0.
pub fn check(header: &[i32], rows: &[i32]) -> Result<(), Refusal>
    ensures value { result ≡ refusal_of Source header.now rows.now }
    ensures accepts_legal { AcceptsLegal Source header.now rows.now result }
    ensures no_cause_if_legal { NoCauseIfLegal Source header.now rows.now (verdict_numbers result).cause }
{
    check_source::check(header, rows)
}

// The check of kernel programs, with the same three promises.
pub fn kernel_check(header: &[i32], rows: &[i32]) -> Result<(), Refusal>
    ensures value { result ≡ refusal_of Kernel header.now rows.now }
    ensures accepts_legal { AcceptsLegal Kernel header.now rows.now result }
    ensures no_cause_if_legal { NoCauseIfLegal Kernel header.now rows.now (verdict_numbers result).cause }
{
    check_kernel::check(header, rows)
}

// Runs an accepted source program: the machine walks its resolved table, which stands in this frame alone.
fn run_resolved(header: &[i32], rows: &[i32], store: &mut [i32], budget: u32) -> RunAnswer
    requires rows_value { refusal_of Source header.now rows.now ≡ (Ok tt) }
    requires store_len { length store.old ≡ store_words Source header.now rows.now }
    ensures { finished_of result store.new ≡ run_program Source header.now rows.now budget store.old }
{
    let words = rows.len();
    let mut table = [0i32; 12288];
    resolve_accepted(header, rows, &mut table);
    run_source_table(header, &table[0..words], store, budget)
}

// The same. A store of S words is that of a program without declarations, which is its own resolved table.
fn run_source(header: &[i32], rows: &[i32], store: &mut [i32], budget: u32) -> RunAnswer
    requires rows_value { refusal_of Source header.now rows.now ≡ (Ok tt) }
    requires store_len { length store.old ≡ store_words Source header.now rows.now }
    ensures { finished_of result store.new ≡ run_program Source header.now rows.now budget store.old }
{
    if store.len() == store_size(Form::Source, header) {
        return run_source_table(header, rows, store, budget);
    }
    run_resolved(header, rows, store, budget)
}

// Runs an accepted kernel program. Its callers are many, so that the largest room of a run stands in this frame and not in theirs.
pub fn run_kernel(header: &[i32], rows: &[i32], store: &mut [i32], budget: u32) -> RunAnswer
    requires rows_value { refusal_of Kernel header.now rows.now ≡ (Ok tt) }
    requires store_len { length store.old ≡ store_words Kernel header.now rows.now }
    ensures { finished_of result store.new ≡ run_program Kernel header.now rows.now budget store.old }
{
    run_kernel_table(header, rows, store, budget)
}

// Runs an accepted program on a store of its size, for a caller that has the check's answer: nothing is tested again.
pub fn run_accepted(
    form: Form,
    header: &[i32],
    rows: &[i32],
    store: &mut [i32],
    budget: u32,
) -> RunAnswer
    requires rows_value { refusal_of form header.now rows.now ≡ (Ok tt) }
    requires store_len { length store.old ≡ store_words form header.now rows.now }
    ensures { finished_of result store.new ≡ run_program form header.now rows.now budget store.old }
{
    match form {
        Form::Source => run_source(header, rows, store, budget),
        Form::Kernel => run_kernel(header, rows, store, budget),
    }
}

// An accepted program on a store of any size: cause 11, then the run.
fn run_on_store(
    form: Form,
    header: &[i32],
    rows: &[i32],
    store: &mut [i32],
    budget: u32,
) -> Result<RunAnswer, Refusal>
    requires { refusal_of form header.now rows.now ≡ (Ok tt) }
    ensures { answer_and_store result store.new ≡ run_after (Ok tt) form header.now rows.now budget store.old }
{
    if store.len() != store_words(form, header, rows) {
        return Err(Refusal {
            cause: Cause::StoreSize,
            place: 0,
        });
    }
    Ok(run_accepted(form, header, rows, store, budget))
}

// Runs a source program on the store: "How a run goes".
pub fn run(
    header: &[i32],
    rows: &[i32],
    store: &mut [i32],
    budget: u32,
) -> Result<RunAnswer, Refusal>
    ensures { answer_and_store result store.new ≡ run_result Source header.now rows.now budget store.old }
{
    check(header, rows)?;
    run_on_store(Form::Source, header, rows, store, budget)
}

// Runs a kernel program on the store.
pub fn kernel_run(
    header: &[i32],
    rows: &[i32],
    store: &mut [i32],
    budget: u32,
) -> Result<RunAnswer, Refusal>
    ensures { answer_and_store result store.new ≡ run_result Kernel header.now rows.now budget store.old }
{
    kernel_check(header, rows)?;
    run_on_store(Form::Kernel, header, rows, store, budget)
}
