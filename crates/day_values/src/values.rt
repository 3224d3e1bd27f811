// The lines of all values of a setting, lowest first, at the start of `output`; the answer is how many bytes they have.
ghost use Rattle.std.specs.Prelude.{◌≤◌, length};
ghost use Rattle.text_lines.specs.Line.{lines_of};
ghost use Rattle.text_numbers.specs.Writer.{Put};
ghost use Rattle.day_form.specs.Plans.{Sets};
ghost use Rattle.day_run.specs.Days.{pairs_of};
ghost use Rattle.day_values.specs.Values.{setting_output};
ghost use Rattle.day_values.specs.Conditions.{Fits, day_room};

use super::day::put_day;
use day_form::setting::Setting;

pub fn put_values(
    header: &[i32],
    rows: &[i32],
    setting: Setting,
    text: &[u8],
    output: &mut [u8],
) -> usize
    requires fits { Fits header.now rows.now text.now }
    requires sets { Sets setting }
    requires day_room_in_bounds { day_room ≤ length output.old }
    ensures { Put (setting_output header.now rows.now setting (pairs_of (lines_of text.now))) output.old result output.new }
{
    let variable = setting.variable;
    let lowest = setting.lowest;
    let values = setting.values;
    let mut end: usize = 0;
    for done in 0..values {
        let value = lowest + done as i32;
        end += put_day(header, rows, variable, value, text, &mut output[end..]);
    }
    end
}
