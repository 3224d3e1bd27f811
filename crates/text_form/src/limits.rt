// The causes 1 and 2, which reader and writer test alike.
ghost use Rattle.std.specs.Prelude.{◌≡◌, true};
ghost use Rattle.text_form.specs.Answers.{cause_of};
ghost use Rattle.text_form.specs.Reader.{cause_says};

use words::layout::{count_fits, header_fits};
use words::{Cause, Form};

// The first of the causes 1 and 2 that a header and so many row words meet.
pub fn first_cause(form: Form, header: &[i32], words: usize) -> Option<Cause>
    ensures { cause_says result ≡ cause_of form header.now words true }
{
    if !header_fits(form, header) {
        return Some(Cause::Header);
    }
    if !count_fits(form, words) {
        return Some(Cause::RowCount);
    }
    None
}
