// The kernel on paper: docs/PAGES.md.
ghost use Rattle.std.specs.Prelude.{◌≡◌};
ghost use Rattle.text_form.specs.Answers.{Writes};
ghost use Rattle.page_printer.specs.Pages.{PageReads};
ghost use Rattle.page_reader.specs.Reads.{answer_and_rows, page_result, GivesRows};
ghost use Rattle.clight.specs.Prints.{print_result};

use super::runs::kernel_check;
use page_printer::pages::print_accepted;
use words::Refusal;

// Prints a kernel program as a page. The second promise: the page is lines of 80 columns and a newline, and "read with the header by docs/,
// the lines give back the same rows, up to numbering".
pub fn print_kernel(header: &[i32], rows: &[i32], page: &mut [u8]) -> Result<usize, Refusal>
    ensures writes { Writes (print_result header.now rows.now page.old) result page.new }
    ensures page_reads { PageReads header.now rows.now result page.new }
{
    kernel_check(header, rows)?;
    print_accepted(header, rows, page)
}

// Reads a page with a header, and answers how many words its rows have: 1, then 14 with the first wrong line, 2, 10. The second promise: the
// rows that were written are those that docs/PAGES.md reads from the page (`read_table`, page/Tables).
pub fn read_page(header: &[i32], page: &[u8], rows: &mut [i32]) -> Result<usize, Refusal>
    ensures rows_after { answer_and_rows result rows.new ≡ page_result header.now page.now rows.old }
    ensures gives_rows { GivesRows header.now page.now result rows.new }
{
    page_reader::read_page(header, page, rows)
}
