// Reader and writer of both forms' texts, and of pages.
ghost use Rattle.std.specs.Prelude.{◌≡◌};
ghost use Rattle.words.specs.declared.Form.TheVariants.{Source, Kernel};
ghost use Rattle.text_form.specs.Answers.{read_result, write_result};
ghost use Rattle.clight.specs.Prints.{print_result};
ghost use Rattle.page_reader.specs.Reads.{page_result};
ghost use Rattle.exports.specs.Numbers.{answer_of, outcome_answer};

use super::Answer;

// Reads a source text into a header and rows.
#[unsafe(no_mangle)]
pub extern "C" fn clight_read_source(text: &[u8], header: &mut [i32], rows: &mut [i32]) -> Answer
    ensures value { result ≡ outcome_answer (read_result Source text.now header.old rows.old).outcome }
    ensures header_after { header.new ≡ (read_result Source text.now header.old rows.old).header }
    ensures rows_after { rows.new ≡ (read_result Source text.now header.old rows.old).rows }
{
    clight::texts::read_source(text, header, rows).into()
}

// Reads a kernel text.
#[unsafe(no_mangle)]
pub extern "C" fn clight_read_kernel(text: &[u8], header: &mut [i32], rows: &mut [i32]) -> Answer
    ensures value { result ≡ outcome_answer (read_result Kernel text.now header.old rows.old).outcome }
    ensures header_after { header.new ≡ (read_result Kernel text.now header.old rows.old).header }
    ensures rows_after { rows.new ≡ (read_result Kernel text.now header.old rows.old).rows }
{
    clight::texts::read_kernel(text, header, rows).into()
}

// Writes a source program as a text.
#[unsafe(no_mangle)]
pub extern "C" fn clight_write_source(header: &[i32], rows: &[i32], text: &mut [u8]) -> Answer
    ensures value { result ≡ outcome_answer (write_result Source header.now rows.now text.old).outcome }
    ensures text_after { text.new ≡ (write_result Source header.now rows.now text.old).text }
{
    clight::texts::write_source(header, rows, text).into()
}

// Writes a kernel program as a text.
#[unsafe(no_mangle)]
pub extern "C" fn clight_write_kernel(header: &[i32], rows: &[i32], text: &mut [u8]) -> Answer
    ensures value { result ≡ outcome_answer (write_result Kernel header.now rows.now text.old).outcome }
    ensures text_after { text.new ≡ (write_result Kernel header.now rows.now text.old).text }
{
    clight::texts::write_kernel(header, rows, text).into()
}

// Prints a kernel program as a page.
#[unsafe(no_mangle)]
pub extern "C" fn clight_print_kernel(header: &[i32], rows: &[i32], page: &mut [u8]) -> Answer
    ensures value { result ≡ outcome_answer (print_result header.now rows.now page.old).outcome }
    ensures page_after { page.new ≡ (print_result header.now rows.now page.old).text }
{
    clight::pages::print_kernel(header, rows, page).into()
}

// Reads a page with a header.
#[unsafe(no_mangle)]
pub extern "C" fn clight_read_page(header: &[i32], page: &[u8], rows: &mut [i32]) -> Answer
    ensures value { result ≡ answer_of (page_result header.now page.now rows.old).numbers }
    ensures rows_after { rows.new ≡ (page_result header.now page.now rows.old).rows }
{
    clight::pages::read_page(header, page, rows).into()
}
