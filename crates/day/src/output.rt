// What is printed for an input, at the start of `output`; the answer is how many bytes it is.
ghost use Rattle.std.specs.Prelude.{◌≡◌, ◌≤◌, length};
ghost use Rattle.words.specs.Layout.{layout_of};
ghost use Rattle.words.specs.declared.Form.TheVariants.{Source};
ghost use Rattle.language_programs.specs.Program.{resolved_rows};
ghost use Rattle.text_lines.specs.Line.{lines_of};
ghost use Rattle.text_numbers.specs.Writer.{Put};
ghost use Rattle.text_rules.specs.Rules.{IsAccepted};
ghost use Rattle.day_form.specs.Input.{rule_size};
ghost use Rattle.day_form.specs.Lines.{most_days};
ghost use Rattle.day_form.specs.Plans.{Sets, plan_of};
ghost use Rattle.day_run.specs.Days.{pairs_of};
ghost use Rattle.day_values.specs.Values.{setting_output};
ghost use Rattle.day_values.specs.Conditions.{day_room};
ghost use Rattle.day.specs.Output.{plan_output, day_output};

use accepted_rows::resolve_accepted;
use day_form::input::rule_size;
use day_form::plan::read_plan;
use day_form::setting::Setting;
use day_values::values::put_values;
use text_report::line::refused_line;
use text_rules::rule::read_rule;
use words::table::natural;

// The values of a setting. The rule is resolved once, whatever the number of lines: its table stands in this frame alone.
fn put_resolved(
    header: &[i32],
    rows: &[i32],
    setting: Setting,
    days: &[u8],
    output: &mut [u8],
) -> usize
    requires accepted { IsAccepted header.now rows.now }
    requires days_len_bound { length (lines_of days.now) ≤ most_days }
    requires sets { Sets setting }
    requires day_room_in_bounds { day_room ≤ length output.old }
    ensures { Put (setting_output header.now (resolved_rows Source header.now rows.now) setting (pairs_of (lines_of days.now))) output.old result output.new }
{
    let words = rows.len();
    let mut table = [0i32; 768];
    resolve_accepted(header, rows, &mut table);
    put_values(header, &table[0..words], setting, days, output)
}

// What stands behind an accepted rule of so many bytes: 21, then 22, then the values.
fn put_plan(header: &[i32], rows: &[i32], input: &[u8], size: usize, output: &mut [u8]) -> usize
    requires accepted { IsAccepted header.now rows.now }
    requires size_value { size ≡ rule_size input.now }
    requires day_room_in_bounds { day_room ≤ length output.old }
    ensures { Put (plan_output header.now rows.now (plan_of (layout_of Source header.now).variables input.now)) output.old result output.new }
{
    let variables = natural(header[0]);
    let answer = read_plan(variables, input, size);
    match answer {
        Ok((setting, at)) => put_resolved(header, rows, setting, &input[at..], output),
        Err(refusal) => refused_line(refusal, output),
    }
}

// The rule's own causes, then what stands behind it. The rule is read, checked and resolved once.
pub fn day(input: &[u8], output: &mut [u8]) -> usize
    requires { day_room ≤ length output.old }
    ensures { Put (day_output input.now) output.old result output.new }
{
    let size = rule_size(input);
    let mut header = [0i32; 35];
    let mut rows = [0i32; 768];
    let answer = read_rule(&input[0..size], &mut header, &mut rows);
    match answer {
        Ok((header_words, row_words)) => put_plan(
            &header[0..header_words],
            &rows[0..row_words],
            input,
            size,
            output,
        ),
        Err(refusal) => refused_line(refusal, output),
    }
}
