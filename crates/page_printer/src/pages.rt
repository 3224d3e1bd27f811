// The page of an accepted kernel table.
ghost use Rattle.text_form.specs.Answers.{Writes};
ghost use Rattle.check_kernel.specs.Legal.{Legal};
ghost use Rattle.page_printer.specs.Pages.{Worded, print_accepted, PageReads};

use super::items::block_list;
use super::lists::print_list;
use super::sizes::count_list;
use page::sizes_of;
use words::{Cause, Refusal};

fn pass_word(word: i32) {}

// Reads every word, so that what its type says is known of all of them: a word has 32 bits. Nothing is done with it.
fn pass_words(words: &[i32])
    ensures { Worded words.now }
{
    let mut i: usize = 0;
    while i < words.len() {
        pass_word(words[i]);
        i += 1;
    }
}

// Prints an accepted table at the start of `page`, and answers how many bytes that are. "A short page buffer gets 10." The second promise:
// what was printed gives back the table.
pub fn print_accepted(header: &[i32], rows: &[i32], page: &mut [u8]) -> Result<usize, Refusal>
    requires { Legal header.now rows.now }
    ensures writes { Writes (print_accepted header.now rows.now page.old) result page.new }
    ensures page_reads { PageReads header.now rows.now result page.new }
{
    pass_words(rows);
    let first = block_list(rows, 0);
    let size = 81 * count_list(rows, first);
    if page.len() < size {
        return Err(Refusal {
            cause: Cause::NoRoom,
            place: 0,
        });
    }
    let sizes = sizes_of(header);
    print_list(sizes, rows, first, 0, 0, page);
    Ok(size)
}
