// The measures of a call's arguments. They are worked out from the last to the first, so each waits while those before it are: what these can
// write is joined along the list.
ghost use Rattle.std.specs.Prelude.{◌≡◌, ◌+◌, ◌≤◌, ◌<◌, ◌^◌};
ghost use Rattle.words.specs.Table.{row_count};
ghost use Rattle.language.specs.Decode.{argument_list_at};
ghost use Rattle.language.specs.Calls.{argument_count};
ghost use Rattle.write_sets_rows.specs.WriteSets.{Sets};
ghost use Rattle.measures_table.specs.Measures.{LinkMeasured, MeasuredFrom};
ghost use Rattle.measures_expressions.specs.Passed.{no_passed, PassedFits, passed_with, PassedAt};

use super::copies::copied_against;
use super::holders::taken_at;
use language_shapes::rows::argument_at;
use measures_table::table::{limited, measure_at};
use measures_table::{LEVELS, Passed, ROWS};
use words::table::number_at;
use write_sets::WriteSet;
use write_sets_rows::table::set_at;

fn no_passed() -> Passed
    ensures { result ≡ no_passed }
{
    Passed {
        rows: 0,
        levels: 0,
        taken: 0,
        count: 0,
        copies: 0,
    }
}

// An argument before others, the expression at a row: `taken` is how many temporaries its value takes, `copied` whether it is copied.
fn with_argument(table: &[usize], e: usize, taken: usize, copied: usize, behind: Passed) -> Passed
    requires { LinkMeasured table.now e × (taken ≤ 1) × (copied ≤ 1) × PassedFits behind }
    ensures { result ≡ passed_with table.now e taken copied behind }
{
    let held = taken + copied;
    let own = measure_at(table, e, LEVELS).max(held);
    Passed {
        rows: limited(4 * copied + measure_at(table, e, ROWS) + behind.rows),
        levels: limited(behind.levels.max(behind.taken + own)),
        taken: behind.taken + held,
        count: behind.count + 1,
        copies: copied + 2 * behind.copies,
    }
}

// The arguments from the row at a link on; those before them can write the set.
pub fn passed_measures(
    store: usize,
    rows: &[i32],
    sets: &[WriteSet],
    table: &[usize],
    link: usize,
    before: WriteSet,
) -> Passed
    requires { Sets store rows.now sets.now × (0 < link → MeasuredFrom rows.now table.now (link + 1) × (link < row_count rows.now)) × (argument_count (argument_list_at rows.now link) ≤ 64) }
    ensures { PassedAt store rows.now link before result }
{
    if link == 0 {
        return no_passed();
    }
    let next = number_at(rows, link, 5);
    let shape = argument_at(rows, link);
    match shape {
        Some(e) => {
            let copied = copied_against(store, rows, table, e, before);
            let taken = taken_at(rows, table, e);
            let written = set_at(sets, e).join(before);
            let behind = passed_measures(store, &*rows, &*sets, &*table, next, written);
            with_argument(table, e, taken, copied, behind)
        }
        None => no_passed(),
    }
}
