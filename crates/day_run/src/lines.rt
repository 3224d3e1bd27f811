// The lines of a day, one after the other.
ghost use Rattle.std.specs.Prelude.{◌≡◌, ◌≤◌, length};
ghost use Rattle.words.specs.declared.Form.TheVariants.{Source};
ghost use Rattle.text_lines.specs.Line.{lines_of};
ghost use Rattle.machine.specs.Whole.{Runnable};
ghost use Rattle.text_rules.specs.Rules.{store_room};
ghost use Rattle.day_run.specs.Days.{do_lines, pairs_of, new_day};
ghost use Rattle.day_run.specs.Conditions.{day_left};

use super::Tally;
use super::line::do_line;
use day_form::lines::next_line;

// Does the lines of a text in order, and counts those that ended plainly and those that did not.
pub fn do_lines(header: &[i32], rows: &[i32], text: &[u8], store: &mut [i32]) -> Tally
    requires runnable { Runnable Source header.now rows.now store.old }
    requires store_len_bound { length store.old ≤ store_room }
    ensures { day_left result store.new ≡ do_lines header.now rows.now (pairs_of (lines_of text.now)) (new_day store.old) }
{
    let mut at: usize = 0;
    let mut plain: usize = 0;
    let mut other: usize = 0;
    // Kept as a while: the step is the length of what was read.
    while at < text.len() {
        let mut table = [0i32; 32];
        let next = next_line(text, at, &mut table);
        let count = next.count;
        let done = do_line(header, rows, &table[0..count], store);
        plain += done;
        other += 1 - done;
        at = next.at;
    }
    Tally { plain, other }
}
