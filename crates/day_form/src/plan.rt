// The setting and the day lines behind a rule, or why they are turned away: 21, then 22.
ghost use Rattle.std.specs.Prelude.{◌≡◌, ◌+◌, ◌<◌, length, Ok};
ghost use Rattle.words.specs.Causes.{cause_number};
ghost use Rattle.text_lines.specs.Line.{lines_of};
ghost use Rattle.day_form.specs.Input.{rule_size};
ghost use Rattle.day_form.specs.Plans.{refused_at, outside_line, days_verdict, lines_plan, plan_of, PlanRead};

use super::input::{count_lines, lines_start};
use super::lines::{LineTest, first_line, next_line};
use super::setting::{Setting, setting_of};
use words::{Cause, Refusal};

// The first line with a variable number outside: the setting's, or a day line's behind it.
fn first_outside(variables: usize, first: usize, variable: usize, text: &[u8]) -> Option<usize>
    requires { first + length text.now < 9223372036854775809 }
    ensures { result ≡ outside_line variables first variable (lines_of text.now) }
{
    if variable >= variables {
        return Some(first);
    }
    first_line(LineTest::Names(variables), text, first + 1)
}

// The refusal for a line that is turned away.
fn turned_away(cause: Cause, found: Option<usize>) -> Result<(), Refusal>
    ensures { result ≡ refused_at (cause_number cause) found (Ok tt) }
{
    match found {
        Some(line) => Err(Refusal { cause, place: line }),
        None => Ok(()),
    }
}

// The day lines behind a setting: all grounds for 21, then all grounds for 22.
fn check_days(variables: usize, first: usize, variable: usize, text: &[u8]) -> Result<(), Refusal>
    requires { first + length text.now < 9223372036854775809 }
    ensures { result ≡ days_verdict variables first variable (lines_of text.now) }
{
    let malformed = first_line(LineTest::Pairs(first + 200), text, first + 1);
    turned_away(Cause::MalformedDay, malformed)?;
    let outside = first_outside(variables, first, variable, text);
    turned_away(Cause::DayVariable, outside)
}

// The lines behind a rule and its empty line, the first of which has this number in the whole input.
fn plan_lines(variables: usize, first: usize, text: &[u8]) -> Result<(Setting, usize), Refusal>
    requires { first + length text.now < 9223372036854775809 }
    ensures { PlanRead (lines_plan variables first (lines_of text.now)) result text.now }
{
    let missing = Refusal {
        cause: Cause::MalformedDay,
        place: first,
    };
    if text.is_empty() {
        return Err(missing);
    }
    let mut table = [0i32; 32];
    let next = next_line(text, 0, &mut table);
    let count = next.count;
    let at = next.at;
    let Some(setting) = setting_of(&table[0..count]) else {
        return Err(missing);
    };
    check_days(variables, first, setting.variable, &text[at..])?;
    Ok((setting, at))
}

// What stands behind the rule of an input, which has so many bytes and variables.
pub fn read_plan(variables: usize, input: &[u8], size: usize) -> Result<(Setting, usize), Refusal>
    requires { size ≡ rule_size input.now }
    ensures { PlanRead (plan_of variables input.now) result input.now }
{
    let start = lines_start(input, size);
    let first = count_lines(&input[0..start]) + 1;
    let (setting, at) = plan_lines(variables, first, &input[start..])?;
    Ok((setting, start + at))
}
