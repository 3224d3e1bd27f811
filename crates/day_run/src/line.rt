// One line of a day: its pairs and its run on a copy of the store, which is kept where the run ends plainly. The rows are those of the
// rule's resolved table.
ghost use Rattle.std.specs.Prelude.{◌≡◌, ◌≤◌, length, set};
ghost use Rattle.words.specs.declared.Form.TheVariants.{Source};
ghost use Rattle.machine.specs.Whole.{Runnable};
ghost use Rattle.text_rules.specs.Rules.{store_room};
ghost use Rattle.day_run.specs.Days.{store_pairs};
ghost use Rattle.day_run.specs.Conditions.{LineDone};

use machine::whole::run;
use words::table::natural;
use words::{Ending, Form};
use words_copying::put;

// Stores a value at a place. A place that the store does not have stores nothing.
pub fn store_at(at: usize, value: i32, store: &mut [i32])
    ensures { store.new ≡ set store.old at value }
{
    if at >= store.len() {
        return;
    }
    store[at] = value;
}

fn store_pairs(pairs: &[i32], store: &mut [i32])
    ensures { store.new ≡ store_pairs pairs.now store.old }
{
    for i in 0..pairs.len() / 2 {
        store_at(natural(pairs[2 * i]), pairs[2 * i + 1], store);
    }
}

// The line on a copy, which is put back only where the run ended plainly. 1 where it did, 0 where it did not.
fn do_on_copy(
    header: &[i32],
    rows: &[i32],
    pairs: &[i32],
    store: &mut [i32],
    copy: &mut [i32],
) -> usize
    requires runnable { Runnable Source header.now rows.now store.old }
    requires copy_len { length copy.old ≡ length store.old }
    ensures { LineDone header.now rows.now pairs.now store.old result store.new }
{
    put(store, copy);
    store_pairs(pairs, copy);
    let answer = run(Form::Source, header, rows, copy, 100000);
    match answer.ending {
        Ending::Plain => {
            put(copy, store);
            1
        }
        Ending::Spent => 0,
        Ending::Fault(_) => 0,
    }
}

// Does one line: 1 where its run ended plainly, 0 where it did not, and the store is as it was.
pub fn do_line(header: &[i32], rows: &[i32], pairs: &[i32], store: &mut [i32]) -> usize
    requires runnable { Runnable Source header.now rows.now store.old }
    requires store_len_bound { length store.old ≤ store_room }
    ensures { LineDone header.now rows.now pairs.now store.old result store.new }
{
    let size = store.len();
    let mut copy = [0i32; 1088];
    do_on_copy(header, rows, pairs, store, &mut copy[0..size])
}
