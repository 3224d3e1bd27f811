// Cause 13, one label number at a time: its labels mark their lists, and from each of its gotos a climb looks for a marked list.
ghost use Rattle.std.specs.Prelude.{◌≡◌, ◌+◌, ◌*◌, ◌/◌, ◌<◌, length};
ghost use Rattle.words.specs.Links.{link};
ghost use Rattle.words.specs.Search.{some, lowest_row};
ghost use Rattle.check_structure.specs.Passes.{Notes};
ghost use Rattle.check_structure.specs.Structured.{Tree};
ghost use Rattle.check_labels.specs.Labels.{around_at, is_label, label_behind, label_ahead, label_fault};
ghost use Rattle.check_labels.specs.Passes.{note_at, Noted, Jump, NextJump, LabelNumbers, Heads, Chain, Marks, Marked, LowestAmong, NumberBelow, lower};
ghost use Rattle.check_labels.specs.declared.LabelNote.TheVariants.{First, Owner};

use super::LabelNote;
use super::chains::chain_rows;
use super::notes::write_notes;
use check_kernel_statements::number_or_zero;
use check_structure::row_number::{narrow, wide};
use words::table::number_at;
use words_roles::is_definition;

// A label with this number.
fn is_label(rows: &[i32], number: usize, row: usize) -> bool
    requires { 6 * (length rows.now / 6) ≡ length rows.now }
    ensures { result ≡ is_label rows.now number row }
{
    if number_or_zero(rows, row, 0) == 53 {
        return number_or_zero(rows, row, 1) == number;
    }
    false
}

// A label marks its list.
fn mark_label(rows: &[i32], firsts: &[u16], marks: &mut [u16], number: usize, row: usize)
    requires { Tree rows.now × (row < length rows.now / 6) × Notes rows.now (note_at First rows.now) firsts.now × Marked rows.now number row marks.old }
    ensures { Marked rows.now number (row + 1) marks.new }
{
    if is_label(rows, number, row) {
        let first = wide(firsts[row]);
        marks[first] = narrow(row);
    }
}

// The labels of a number, whose chain begins at `head`, mark their lists.
pub fn mark_labels(
    rows: &[i32],
    firsts: &[u16],
    chain: &[u16],
    marks: &mut [u16],
    number: usize,
    head: usize,
)
    requires { Tree rows.now × Notes rows.now (note_at First rows.now) firsts.now × Chain rows.now 0 chain.now × Marks rows.now marks.old × NextJump rows.now number 0 head }
    ensures { Marked rows.now number (length rows.now / 6) marks.new }
{
    let count = rows.len() / 6;
    let mut row = head;
    while row < count {
        mark_label(rows, firsts, marks, number, row);
        row = wide(chain[row]);
    }
}

// The number's label is a later item of the row's list.
fn is_behind(rows: &[i32], firsts: &[u16], marks: &[u16], number: usize, row: usize) -> bool
    requires { Tree rows.now × (row < length rows.now / 6) × Notes rows.now (note_at First rows.now) firsts.now × Marked rows.now number (length rows.now / 6) marks.now }
    ensures { result ≡ label_behind (length rows.now / 6) rows.now number row }
{
    let first = wide(firsts[row]);
    let mark = wide(marks[first]);
    if row < mark {
        return is_label(rows, number, mark);
    }
    false
}

// The owner of a row, where that is no definition; else 0.
fn around(rows: &[i32], owners: &[u16], row: usize) -> usize
    requires { Tree rows.now × (link rows.now 0 5 ≡ 0) × Notes rows.now (note_at Owner rows.now) owners.now × (row < length rows.now / 6) }
    ensures { result ≡ around_at rows.now row }
{
    let owner = wide(owners[row]);
    if is_definition(rows, owner) {
        return 0;
    }
    owner
}

// It is one of the row's list, or of a list around that in its function: a climb from owner to owner.
fn is_ahead(
    rows: &[i32],
    firsts: &[u16],
    owners: &[u16],
    marks: &[u16],
    number: usize,
    goto: usize,
) -> bool
    requires { Noted rows.now firsts.now owners.now × Marked rows.now number (length rows.now / 6) marks.now × (goto < length rows.now / 6) }
    ensures { result ≡ label_ahead goto rows.now number goto }
{
    let mut row = goto;
    while row != 0 {
        if is_behind(rows, firsts, marks, number, row) {
            return true;
        }
        row = around(rows, owners, row);
    }
    false
}

// Cause 13 at a goto or label; `seen` says that a label with its number stands before it.
fn is_label_fault(
    rows: &[i32],
    firsts: &[u16],
    owners: &[u16],
    marks: &[u16],
    number: usize,
    seen: bool,
    row: usize,
) -> bool
    requires { Noted rows.now firsts.now owners.now × Marked rows.now number (length rows.now / 6) marks.now × Jump rows.now number row × (seen ≡ some (is_label rows.now number) 0 row) }
    ensures { result ≡ label_fault rows.now row }
{
    if number_at(rows, row, 0) == 53 {
        return seen;
    }
    !is_ahead(rows, firsts, owners, marks, number, row)
}

// A label with the number stands at the row or before it.
fn has_seen(rows: &[i32], number: usize, seen: bool, row: usize) -> bool
    requires { (6 * (length rows.now / 6) ≡ length rows.now) × (seen ≡ some (is_label rows.now number) 0 row) }
    ensures { result ≡ some (is_label rows.now number) 0 (row + 1) }
{
    if seen {
        return true;
    }
    is_label(rows, number, row)
}

// The row, where the test is true and no lower row was found.
fn lower_row(test: bool, row: usize, found: usize) -> usize
    ensures { result ≡ lower test row found }
{
    if test {
        if row < found {
            return row;
        }
        return found;
    }
    found
}

// The lowest row that breaks cause 13 among those of this label number, and `found`, which is that of the smaller numbers.
pub fn lowest_of_number(
    rows: &[i32],
    firsts: &[u16],
    owners: &[u16],
    chain: &[u16],
    marks: &[u16],
    number: usize,
    head: usize,
    found: usize,
) -> usize
    requires { Noted rows.now firsts.now owners.now × Marked rows.now number (length rows.now / 6) marks.now × Chain rows.now 0 chain.now × NextJump rows.now number 0 head × LowestAmong rows.now (NumberBelow rows.now number) (label_fault rows.now) found }
    ensures { LowestAmong rows.now (NumberBelow rows.now (number + 1)) (label_fault rows.now) result }
{
    let count = rows.len() / 6;
    let mut lowest = found;
    let mut seen = false;
    let mut row = head;
    while row < count {
        let fault = is_label_fault(rows, firsts, owners, marks, number, seen, row);
        lowest = lower_row(fault, row, lowest);
        seen = has_seen(rows, number, seen, row);
        row = wide(chain[row]);
    }
    lowest
}

// The lowest row that breaks cause 13; the number of rows where there is none.
fn lowest_of_all(
    rows: &[i32],
    firsts: &[u16],
    owners: &[u16],
    heads: &[u16],
    chain: &[u16],
    marks: &mut [u16],
) -> usize
    requires { Noted rows.now firsts.now owners.now × Heads rows.now 0 heads.now × Chain rows.now 0 chain.now × Marks rows.now marks.old }
    ensures { LowestAmong rows.now (NumberBelow rows.now 40980) (label_fault rows.now) result }
{
    let mut found = rows.len() / 6;
    for number in 0..40980 {
        let head = wide(heads[number]);
        mark_labels(rows, firsts, chain, marks, number, head);
        found = lowest_of_number(rows, firsts, owners, chain, marks, number, head, found);
    }
    found
}

// The lowest row that is a goto without its label ahead, or a repeated label.
pub fn lowest_label_fault(rows: &[i32]) -> Option<usize>
    requires { Tree rows.now × (link rows.now 0 5 ≡ 0) × LabelNumbers rows.now }
    ensures { result ≡ lowest_row rows.now (label_fault rows.now) }
{
    let mut firsts = [0u16; 40980];
    write_notes(LabelNote::First, rows, &mut firsts);
    let mut owners = [0u16; 40980];
    write_notes(LabelNote::Owner, rows, &mut owners);
    let mut heads = [40980u16; 40980];
    let mut chain = [40980u16; 40980];
    chain_rows(rows, &mut heads, &mut chain);
    let mut marks = [0u16; 40980];
    let found = lowest_of_all(rows, &firsts, &owners, &heads, &chain, &mut marks);
    if found < rows.len() / 6 {
        return Some(found);
    }
    None
}
