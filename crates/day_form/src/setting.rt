// The setting: the variable that is set, and its values.
ghost use Rattle.std.specs.Prelude.{◌≡◌};
ghost use Rattle.day_form.specs.Settings.{setting_by, setting_of};

use arithmetic::subtract;
use words::table::natural;

// The variable's number, the lowest value, and how many values there are.
#[derive(Clone, Copy)]
pub struct Setting {
    pub variable: usize,
    pub lowest: i32,
    pub values: usize,
}

// The values are at most 100, and there is one. A difference that is no word is that of too many, or of none.
fn setting_by(variable: i32, lowest: i32, highest: i32) -> Option<Setting>
    ensures { result ≡ setting_by variable lowest highest }
{
    let Ok(gap) = subtract(highest, lowest) else {
        return None;
    };
    let more = natural(gap);
    if more >= 100 {
        return None;
    }
    Some(Setting {
        variable: natural(variable),
        lowest,
        values: more + 1,
    })
}

// The setting that the numbers of a line are.
pub fn setting_of(numbers: &[i32]) -> Option<Setting>
    ensures { result ≡ setting_of numbers.now }
{
    if numbers.len() != 3 {
        return None;
    }
    setting_by(numbers[0], numbers[1], numbers[2])
}
