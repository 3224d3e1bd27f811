// The causes 1 and 2, with the trial program's limits: 1,024 words of store, 128 rows.
ghost use Rattle.std.specs.Prelude.{◌≡◌};
ghost use Rattle.text_form.specs.Reader.{cause_says};
ghost use Rattle.text_rules.specs.Rules.{trial_cause};

use words::layout::{count_fits, header_fits, store_size};
use words::{Cause, Form};

// All grounds for 1, then all grounds for 2.
pub fn trial_cause(header: &[i32], row_words: usize) -> Option<Cause>
    ensures { cause_says result ≡ trial_cause header.now row_words }
{
    if !header_fits(Form::Source, header) {
        return Some(Cause::Header);
    }
    if store_size(Form::Source, header) > 1024 {
        return Some(Cause::Header);
    }
    if !count_fits(Form::Source, row_words) {
        return Some(Cause::RowCount);
    }
    if row_words > 768 {
        return Some(Cause::RowCount);
    }
    None
}
