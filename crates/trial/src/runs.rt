// Both runs of a program, each from zeros with budget 100,000, and their lines at the start of `output`.
ghost use Rattle.std.specs.Prelude.{◌≡◌, length};
ghost use Rattle.words.specs.Layout.{layout_of, store_size};
ghost use Rattle.words.specs.declared.Form.TheVariants.{Source};
ghost use Rattle.text_numbers.specs.Writer.{Put};
ghost use Rattle.translation_fate.specs.KernelForms.{kernel_header_of, kernel_rows_of};
ghost use Rattle.program_runs.specs.Runs.{refusal_of};
ghost use Rattle.trial.specs.Output.{kernel_output, runs_output};
ghost use Rattle.trial.specs.Conditions.{Fits, FromZeros, KernelFits, KernelFromZeros, Translates};

use program_runs::run_accepted;
use text_report::line::{kernel_line, refused_line, source_line};
use translator::translate_accepted;
use words::Form;
use words::layout::{store_size, store_words};
use write_sets_entry::accepted_count;

// The kernel run on a store of zeros.
fn run_kernel_on(
    header: &[i32],
    rows: &[i32],
    words: usize,
    store: &mut [i32],
    output: &mut [u8],
) -> usize
    requires { KernelFromZeros header.now rows.now words store.old (length output.old) }
    ensures { Put (kernel_output words header.now rows.now) output.old result output.new }
{
    let answer = run_accepted(Form::Kernel, header, rows, store, 100000);
    let ending = answer.ending;
    kernel_line(ending, &store[0..words], output)
}

// The line of a kernel program that the check accepts, with the first `words` words of its store.
fn run_kernel(header: &[i32], rows: &[i32], words: usize, output: &mut [u8]) -> usize
    requires { KernelFits header.now rows.now words (length output.old) }
    ensures { Put (kernel_output words header.now rows.now) output.old result output.new }
{
    let size = store_words(Form::Kernel, header, rows);
    let mut store = [0i32; 1600];
    run_kernel_on(header, rows, words, &mut store[0..size], output)
}

// The line of an accepted program's translation. The translator does not refuse it: 128 rows give at most 2,580.
fn run_translation(header: &[i32], rows: &[i32], output: &mut [u8]) -> usize
    requires { Translates header.now rows.now (length output.old) }
    ensures { Put (kernel_output (store_size (layout_of Source header.now)) (kernel_header_of header.now rows.now) (kernel_rows_of header.now rows.now)) output.old result output.new }
{
    let words = store_size(Form::Source, header);
    let mut kernel_header = [0i32; 35];
    let mut kernel_rows = [0i32; 15480];
    let answer = translate_accepted(header, rows, &mut kernel_header, &mut kernel_rows);
    match answer {
        Ok((header_words, row_words)) => run_kernel(
            &kernel_header[0..header_words],
            &kernel_rows[0..row_words],
            words,
            output,
        ),
        Err(refusal) => refused_line(refusal, output),
    }
}

// The lines of an accepted program: the source run on a store of zeros, then the translation's.
fn run_source_on(header: &[i32], rows: &[i32], store: &mut [i32], output: &mut [u8]) -> usize
    requires { FromZeros header.now rows.now store.old (length output.old) }
    ensures { Put (runs_output header.now rows.now) output.old result output.new }
{
    let answer = run_accepted(Form::Source, header, rows, store, 100000);
    let ending = answer.ending;
    let words = store_size(Form::Source, header);
    let written = accepted_count(header, rows);
    let end = source_line(ending, answer.count, &store[0..words], written, output);
    end + run_translation(header, rows, &mut output[end..])
}

// Both lines of an accepted program within the limits.
pub fn run_source(header: &[i32], rows: &[i32], output: &mut [u8]) -> usize
    requires fits { Fits header.now rows.now (length output.old) }
    requires rows_value { refusal_of Source header.now rows.now ≡ (Ok tt) }
    ensures { Put (runs_output header.now rows.now) output.old result output.new }
{
    let size = store_words(Form::Source, header, rows);
    let mut store = [0i32; 1088];
    run_source_on(header, rows, &mut store[0..size], output)
}
