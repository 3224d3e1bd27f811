// Where a list goes on: "the run goes on at its label, in the first list outward that has it".
ghost use Rattle.std.specs.Prelude.{◌≡◌};
ghost use Rattle.language.specs.Trees.{case as case_of, default as default_of, label as label_of};
ghost use Rattle.language.specs.Decode.{items_at};
ghost use Rattle.machine_flows.specs.Lists.{mark_of, marks, InTable, Finds, Starts, Resumes};

use super::flows::flow;
use super::{Flow, SoughtMark};
use machine_operations::operations::link_at;
use words::table::{number_at, word_at};

// Whether the item at a row is this mark. A search passes many rows, so the tests go by the number of the kind: 48 a case, 49 a
// default, 53 a label.
fn is_mark(rows: &[i32], row: usize, mark: SoughtMark) -> bool
    requires { InTable rows.now row }
    ensures { result ≡ marks (mark_of mark) (items_at rows.now row) }
{
    match mark {
        SoughtMark::Case(value) => is_case(rows, row, value),
        SoughtMark::Default => is_default(rows, row),
        SoughtMark::Label(label) => is_label(rows, row, label),
    }
}

fn is_case(rows: &[i32], row: usize, value: i32) -> bool
    requires { InTable rows.now row }
    ensures { result ≡ marks (case_of value) (items_at rows.now row) }
{
    number_at(rows, row, 0) == 48 && value == word_at(rows, row, 1)
}

fn is_default(rows: &[i32], row: usize) -> bool
    requires { InTable rows.now row }
    ensures { result ≡ marks default_of (items_at rows.now row) }
{
    number_at(rows, row, 0) == 49
}

fn is_label(rows: &[i32], row: usize, label: usize) -> bool
    requires { InTable rows.now row }
    ensures { result ≡ marks (label_of label) (items_at rows.now row) }
{
    number_at(rows, row, 0) == 53 && label == number_at(rows, row, 1)
}

// The first item from `first` on that is the mark, or 0.
pub fn find_mark(rows: &[i32], first: usize, mark: SoughtMark) -> usize
    requires { InTable rows.now first }
    ensures { Finds rows.now first (mark_of mark) result }
{
    let mut at = first;
    while at != 0 && !is_mark(rows, at, mark) {
        at = link_at(rows, at, 5);
    }
    at
}

// The item at which a switch begins: "the case of equal value, else .. default", or 0.
pub fn find_start(rows: &[i32], first: usize, value: i32) -> usize
    requires { InTable rows.now first }
    ensures { Starts rows.now first value result }
{
    let at = find_mark(rows, first, SoughtMark::Case(value));
    if at != 0 {
        return at;
    }
    find_mark(rows, first, SoughtMark::Default)
}

// The item at which a list goes on after the item at a row ended with this answer, or 0.
pub fn resume(rows: &[i32], row: usize, answer: i64) -> usize
    requires { InTable rows.now row }
    ensures { Resumes rows.now row answer result }
{
    match flow(answer) {
        Flow::Next => link_at(rows, row, 5),
        Flow::Goto(label) => find_mark(rows, link_at(rows, row, 5), SoughtMark::Label(label)),
        Flow::Break | Flow::Continue | Flow::Return | Flow::Halted => 0,
    }
}
