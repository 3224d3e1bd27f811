// The lowest row that breaks a cause, with what the cause looks up of each row.
ghost use Rattle.std.specs.Prelude.{◌≡◌, true, not, ◌&&◌, ◌+◌, ◌*◌, ◌/◌, ◌<◌, eqb, length, get_or};
ghost use Rattle.words.specs.Table.{row_count, number_at};
ghost use Rattle.words.specs.Links.{link as link_of};
ghost use Rattle.words.specs.Search.{lowest_row};
ghost use Rattle.check_structure.specs.Structured.{Tree};
ghost use Rattle.check_structure.specs.Passes.{Notes};
ghost use Rattle.words.specs.Declarations.{is_declaration};
ghost use Rattle.check_items.specs.Items.{earlier_at, some_earlier};
ghost use Rattle.check_parameter_causes.specs.Parameters.{some_of_list};
ghost use Rattle.check_declaration_causes.specs.Causes.{same_number};
ghost use Rattle.check_declarations.specs.Passes.{breaks, looked_up};

use super::DeclarationFault;
use super::initial::named_from;
use check_grammar::kinds::KindTable;
use check_grammar::search::lowest_row;
use check_structure::row_number::wide;
use words::declarations::is_declaration;
use words::table::number_at;

// "At most 64."
const LIMIT: usize = 64;

// A declaration before the row in its list has its number: a search back through them. Where none is repeated before the row, there are
// no more of them than variables.
fn number_before(rows: &[i32], earlier: &[u16], row: usize) -> bool
    requires { Tree rows.now × (row < length rows.now / 6) × Notes rows.now (earlier_at (is_declaration rows.now) rows.now) earlier.now }
    ensures { result ≡ some_earlier (is_declaration rows.now) (same_number rows.now row) rows.now row }
{
    let number = number_at(rows, row, 1);
    let mut item = wide(earlier[row]);
    loop {
        if item == 0 {
            return false;
        }
        if number_at(rows, item, 1) == number {
            return true;
        }
        item = wide(earlier[item]);
    }
}

// A row of the list from this one on has the number.
fn listed(kinds: &KindTable, rows: &[i32], first: usize, row: usize) -> bool
    requires { Tree rows.now × (first < length rows.now / 6) × (row < length rows.now / 6) }
    ensures { result ≡ some_of_list (row_count rows.now) (same_number rows.now row) rows.now first }
{
    let number = number_at(rows, row, 1);
    let mut parameter = first;
    loop {
        if parameter == 0 {
            return false;
        }
        if number_at(rows, parameter, 1) == number {
            return true;
        }
        parameter = kinds.link(rows, parameter, 5);
    }
}

// A declaration of a function's block has the number of a parameter; `function` is the one whose block the row is, or in whose block's own
// list it stands.
fn as_parameter(kinds: &KindTable, rows: &[i32], function: usize, row: usize) -> bool
    requires { Tree rows.now × (function < length rows.now / 6) × (row < length rows.now / 6) }
    ensures { result ≡ not (eqb (link_of rows.now function 3) row) && some_of_list (row_count rows.now) (same_number rows.now row) rows.now (link_of rows.now function 2) }
{
    if kinds.link(rows, function, 3) == row {
        return false;
    }
    listed(kinds, rows, kinds.link(rows, function, 2), row)
}

// Cause 7: no item of a block, and no parameter, which has no b.
fn outside_block(rows: &[i32], items: &[u16], row: usize) -> bool
    requires { (6 * row + 5 < length rows.now) × (row < length items.now) }
    ensures { result ≡ not (eqb (number_at rows.now row 2) 0) && eqb (get_or items.now row 0) 0 }
{
    if number_at(rows, row, 2) == 0 {
        return false;
    }
    items[row] == 0
}

// A declaration breaks the cause.
fn declaration_breaks(
    cause: DeclarationFault,
    kinds: &KindTable,
    rows: &[i32],
    notes: &[u16],
    row: usize,
) -> bool
    requires { Tree rows.now × (row < length rows.now / 6) × (is_declaration rows.now row ≡ true) × Notes rows.now (looked_up cause rows.now) notes.now }
    ensures { result ≡ breaks cause rows.now row }
{
    match cause {
        DeclarationFault::OutsideBlock => outside_block(rows, notes, row),
        DeclarationFault::NamesItself => named_from(
            kinds,
            rows,
            number_at(rows, row, 1),
            kinds.link(rows, row, 2),
        ),
        DeclarationFault::DeclaredBefore => number_before(rows, notes, row),
        DeclarationFault::DeclaredAsParameter => as_parameter(kinds, rows, wide(notes[row]), row),
        DeclarationFault::OneTooMany => wide(notes[row]) == LIMIT,
    }
}

// A row breaks the cause.
fn row_breaks(
    cause: DeclarationFault,
    kinds: &KindTable,
    rows: &[i32],
    notes: &[u16],
    row: usize,
) -> bool
    requires { Tree rows.now × (row < length rows.now / 6) × Notes rows.now (looked_up cause rows.now) notes.now }
    ensures { result ≡ breaks cause rows.now row }
{
    if is_declaration(rows, row) {
        return declaration_breaks(cause, kinds, rows, notes, row);
    }
    false
}

// The lowest row that does.
pub fn lowest_breaking(
    cause: DeclarationFault,
    kinds: &KindTable,
    rows: &[i32],
    notes: &[u16],
) -> Option<usize>
    requires { Tree rows.now × Notes rows.now (looked_up cause rows.now) notes.now }
    ensures { result ≡ lowest_row rows.now (breaks cause rows.now) }
{
    lowest_row(rows, |row| row_breaks(cause, kinds, rows, notes, row))
}
