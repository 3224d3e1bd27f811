// A rule's text, read and checked once: document 01, the end of "Text": the length, then 14, then 1 and 2, then the check.
ghost use Rattle.std.specs.Prelude.{length, ◌≡◌};
ghost use Rattle.words.specs.declared.Form.TheVariants.{Source};
ghost use Rattle.text_form.specs.Text.{parse};
ghost use Rattle.text_form.specs.Reader.{HasLines};
ghost use Rattle.text_rules.specs.Rules.{parsed_rule, rule_of, WithinLimits, RuleRead};

use super::limits::trial_cause;
use check_source::check;
use text_form::reader::shape_of;
use text_lines::line::store_numbers;
use words::{Cause, Form, Refusal};

// A text within the limits is read, and its program checked. The reader does not refuse it: both tables have room.
fn program_rule(
    text: &[u8],
    header: &mut [i32],
    rows: &mut [i32],
) -> Result<(usize, usize), Refusal>
    requires within_limits { WithinLimits text.now }
    requires header_len { length header.old ≡ 35 }
    requires rows_len { length rows.old ≡ 768 }
    ensures { RuleRead (parsed_rule (parse Source text.now)) result header.new rows.new }
{
    let (header_words, row_words) = text_form::read(Form::Source, text, header, rows)?;
    check(&header[0..header_words], &rows[0..row_words])?;
    Ok((header_words, row_words))
}

// A well-formed text: the causes 1 and 2 by its first line and the number of its row words, then its program.
fn lines_rule(
    text: &[u8],
    end: usize,
    numbers: usize,
    row_words: usize,
    header: &mut [i32],
    rows: &mut [i32],
) -> Result<(usize, usize), Refusal>
    requires has_lines { HasLines 6 Source text.now end numbers row_words }
    requires header_len { length header.old ≡ 35 }
    requires rows_len { length rows.old ≡ 768 }
    ensures { RuleRead (parsed_rule (parse Source text.now)) result header.new rows.new }
{
    let mut first = [0i32; 35];
    store_numbers(&text[0..end], &mut first);
    if let Some(cause) = trial_cause(&first[0..numbers], row_words) {
        return Err(Refusal { cause, place: 0 });
    }
    program_rule(text, header, rows)
}

// Reads a rule's text to the start of both tables, and checks its program.
pub fn read_rule(
    text: &[u8],
    header: &mut [i32],
    rows: &mut [i32],
) -> Result<(usize, usize), Refusal>
    requires header_len { length header.old ≡ 35 }
    requires rows_len { length rows.old ≡ 768 }
    ensures { RuleRead (rule_of text.now) result header.new rows.new }
{
    if text.len() > 16384 {
        return Err(Refusal {
            cause: Cause::RowCount,
            place: 0,
        });
    }
    let (end, numbers, row_words) = shape_of(6, Form::Source, text).map_err(|line| Refusal {
        cause: Cause::MalformedText,
        place: line,
    })?;
    lines_rule(text, end, numbers, row_words, header, rows)
}
