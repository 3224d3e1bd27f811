// The reader of pages: with a header, the rows of the program whose page it is (docs/PAGES.md). One pass from the first line to the last counts
// the rows (page_scan); one from the last to the first writes them, with a stack of row numbers.
#![tactic(auto)]

pub mod header_names; // header_names.rt: the names that a header gives
pub mod rows; // rows.rt: the pass that writes the rows
pub mod waiting; // waiting.rt: the rows that wait for the lines that open their blocks

ghost use Rattle.std.specs.Prelude.{◌≡◌, true};
ghost use Rattle.words.specs.Layout.{header_fits};
ghost use Rattle.words.specs.Causes.{cause_number};
ghost use Rattle.words.specs.declared.Form.TheVariants.{Kernel};
ghost use Rattle.page_blocks.specs.Scans.{scan as scan_of, names_of};
ghost use Rattle.page_reader.specs.Reads.{answer_and_rows, refused_as, read_scanned, page_result, GivesRows};

use self::header_names::names_of;
use self::rows::write_rows;
use page::sizes_of;
use page_scan::scan;
use page_words::Names;
use words::layout::header_fits;
use words::{Cause, Form, Refusal};

fn refused(cause: Cause, place: usize) -> Result<usize, Refusal>
    ensures { result ≡ refused_as (cause_number cause) place }
{
    Err(Refusal {
        cause: cause,
        place: place,
    })
}

// A page without a wrong line: the causes 2 and 10, then its rows.
fn read_whole(
    header: &[i32],
    names: Names,
    count: usize,
    page: &[u8],
    rows: &mut [i32],
) -> Result<usize, Refusal>
    requires { (header_fits Kernel header.now ≡ true) × (names ≡ names_of header.now) × (scan_of names page.now ≡ Ok count) }
    ensures rows_after { answer_and_rows result rows.new ≡ read_scanned (Ok count) header.now page.now rows.old }
    ensures gives_rows { GivesRows header.now page.now result rows.new }
{
    if count > 40980 {
        return refused(Cause::RowCount, 0);
    }
    let words = 6 * count;
    if words > rows.len() {
        return refused(Cause::NoRoom, 0);
    }
    let sizes = sizes_of(header);
    write_rows(names, sizes, page, count, rows);
    Ok(words)
}

// Reads a page with a header: 1, then 14 with the first wrong line, 2, 10. The second promise: the rows that were written are those that
// page/Tables reads from the page.
pub fn read_page(header: &[i32], page: &[u8], rows: &mut [i32]) -> Result<usize, Refusal>
    ensures rows_after { answer_and_rows result rows.new ≡ page_result header.now page.now rows.old }
    ensures gives_rows { GivesRows header.now page.now result rows.new }
{
    if !header_fits(Form::Kernel, header) {
        return refused(Cause::Header, 0);
    }
    let names = names_of(header);
    let scanned = scan(names, page);
    match scanned {
        Ok(count) => read_whole(header, names, count, page, rows),
        Err(line) => refused(Cause::MalformedText, line),
    }
}
