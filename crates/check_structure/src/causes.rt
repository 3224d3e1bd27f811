// The lowest row that breaks a cause, and the causes 1 to 6 in order.
ghost use Rattle.std.specs.Prelude.{◌≡◌, ℕ, ◌+◌, ◌*◌, ◌/◌, ◌<◌, length, get_or};
ghost use Rattle.words.specs.Table.{row_count};
ghost use Rattle.words.specs.Causes.{cause_number};
ghost use Rattle.words.specs.Search.{lowest_row};
ghost use Rattle.words_roles.specs.Passes.{Blank, Parameters};
ghost use Rattle.check_structure.specs.Links.{link_count, not_once};
ghost use Rattle.check_structure.specs.Refusal.{at as at_cause, row_causes, structural_refusal};
ghost use Rattle.check_structure.specs.Passes.{field_cause, row_cause, lowest_cause, number_of, cause_named, first_of, lowered_by, verdict_of, comes_first, later_causes, Unmarked, Marked};

use super::links::{is_not_once, mark_links, unmark};
use check_fields::Bounds;
use check_fields::fields::{bounds_of, is_foreign, is_mislinked, is_outside};
use check_grammar::kinds::KindTable;
use check_grammar::search::lowest_row;
use words::layout::{count_fits, header_fits};
use words::{Cause, Form, Refusal};
use words_roles::mark_parameters;

// A table of rows with what the tests of its fields look up: the table of kinds, the numbers of the header, and the marks of the parameters.
#[derive(Clone, Copy)]
struct MarkedRows<'a> {
    kinds: &'a KindTable,
    form: Form,
    bounds: Bounds,
    rows: &'a [i32],
    parameters: &'a [u8],
    ghost marked: { Parameters rows.now parameters.now },
}

impl MarkedRows<'_> {
    // The first of the causes 3, 4 and 6 that a field breaks.
    fn field_cause(&self, row: usize, field: usize) -> Option<Cause>
        requires { (6 * row + 5 < length self.now.rows.now) × (field < 6) }
        ensures { number_of result ≡ cause_named (field_cause self.now.form self.now.bounds self.now.rows.now row field) }
    {
        if is_foreign(self.kinds, self.form, self.rows, row, field) {
            return Some(Cause::Foreign);
        }
        if is_mislinked(self.kinds, self.rows, self.parameters, row, field) {
            return Some(Cause::Mislinked);
        }
        if is_outside(self.kinds, self.bounds, self.rows, row, field) {
            return Some(Cause::NumberOutside);
        }
        None
    }

    // The first of the three causes that a field of the row breaks.
    fn row_cause(&self, row: usize) -> Option<Cause>
        requires { 6 * row + 5 < length self.now.rows.now }
        ensures { number_of result ≡ cause_named (row_cause self.now.form self.now.bounds self.now.rows.now row) }
    {
        let mut cause = None;
        for field in 0..6 {
            cause = first_of(cause, self.field_cause(row, field));
        }
        cause
    }

    // The first of the three causes that a row breaks, at the lowest row that breaks it: causes 3 and 4 come before all that follows, and
    // where neither is broken, the lowest row that breaks 6 is known.
    fn lowest_cause(&self) -> Result<(), Refusal>
        ensures { result ≡ verdict_of (lowest_cause (row_cause self.now.form self.now.bounds self.now.rows.now) (row_count self.now.rows.now)) }
    {
        let mut found = Ok(());
        for row in 0..self.rows.len() / 6 {
            found = lower(found, self.row_cause(row), row);
        }
        found
    }
}

// The first of two causes, in the order of their numbers.
fn first_of(one: Option<Cause>, other: Option<Cause>) -> Option<Cause>
    ensures { number_of result ≡ first_of (number_of one) (number_of other) }
{
    let Some(first) = one else {
        return other;
    };
    let Some(second) = other else {
        return one;
    };
    if first.number() <= second.number() {
        return one;
    }
    other
}

// One row more: an earlier cause counts, at this row.
fn lower(found: Result<(), Refusal>, cause: Option<Cause>, row: usize) -> Result<(), Refusal>
    ensures { result ≡ lowered_by found (number_of cause) row }
{
    let Some(cause) = cause else {
        return found;
    };
    let refusal = Refusal {
        cause: cause,
        place: row,
    };
    match found {
        Ok(()) => Err(refusal),
        Err(earlier) => {
            if cause.number() < earlier.cause.number() {
                return Err(refusal);
            }
            found
        }
    }
}

// The same, where the parameters are not marked yet.
fn lowest_cause(
    kinds: &KindTable,
    form: Form,
    bounds: Bounds,
    rows: &[i32],
    marks: &mut [u8],
) -> Result<(), Refusal>
    requires { Blank rows.now marks.old }
    ensures { result ≡ verdict_of (lowest_cause (row_cause form bounds rows.now) (row_count rows.now)) }
{
    mark_parameters(rows, marks);
    let marked = MarkedRows {
        kinds: kinds,
        form: form,
        bounds: bounds,
        rows: rows,
        parameters: marks,
    };
    marked.lowest_cause()
}

// The mark of a row; 0 where there is none.
fn mark_at(marks: &[u8], row: usize) -> u8
    ensures { result ≡ get_or marks.now row 0 }
{
    if row < marks.len() {
        return marks[row];
    }
    0
}

// The lowest row that is not linked exactly once; `marks` says how often each row is.
fn lowest_not_marked_once(rows: &[i32], marks: &[u8]) -> Option<usize>
    ensures { result ≡ lowest_row rows.now (λ (row : ℕ). not_once rows.now (get_or marks.now row 0) row) }
{
    lowest_row(rows, |row| is_not_once(rows, mark_at(marks, row), row))
}

// Cause 5. The marks are lent, since a kernel program needs twenty times the room of a source program.
fn lowest_not_once(kinds: &KindTable, rows: &[i32], marks: &mut [u8]) -> Option<usize>
    requires { (6 * (length rows.now / 6) ≡ length rows.now) × Marked rows.now 0 marks.old }
    ensures { result ≡ lowest_row rows.now (λ (row : ℕ). not_once rows.now (link_count rows.now row) row) }
{
    mark_links(kinds, rows, marks);
    lowest_not_marked_once(rows, marks)
}

// The refusal for a cause that some row breaks.
pub fn at(cause: Cause, found: Option<usize>) -> Result<(), Refusal>
    ensures { result ≡ at_cause (cause_number cause) found }
{
    match found {
        Some(row) => Err(Refusal {
            cause: cause,
            place: row,
        }),
        None => Ok(()),
    }
}

// Causes 5 and 6, with what the pass for 3, 4 and 6 found: 6, or none.
fn later_causes(
    kinds: &KindTable,
    rows: &[i32],
    marks: &mut [u8],
    found: Result<(), Refusal>,
) -> Result<(), Refusal>
    requires { (6 * (length rows.now / 6) ≡ length rows.now) × Marked rows.now 0 marks.old }
    ensures { result ≡ later_causes rows.now found }
{
    at(Cause::NotLinkedOnce, lowest_not_once(kinds, rows, marks))?;
    found
}

// What was found comes before cause 5: it is 3 or 4.
fn comes_first(found: &Result<(), Refusal>) -> bool
    ensures { result ≡ comes_first found.now }
{
    match found {
        Ok(()) => false,
        Err(refusal) => refusal.cause.number() < 5,
    }
}

// Causes 3 to 6. The marks are those of the parameters first, then those of the links.
fn row_causes(
    kinds: &KindTable,
    form: Form,
    bounds: Bounds,
    rows: &[i32],
    marks: &mut [u8],
) -> Result<(), Refusal>
    requires { (6 * (length rows.now / 6) ≡ length rows.now) × Blank rows.now marks.old }
    ensures { result ≡ row_causes form bounds rows.now }
{
    let found = lowest_cause(kinds, form, bounds, rows, marks);
    if comes_first(&found) {
        return found;
    }
    unmark(rows.len() / 6, marks);
    later_causes(kinds, rows, marks, found)
}

// The same, with the table of kinds: it is built here, once, and lent on.
fn table_causes(form: Form, bounds: Bounds, rows: &[i32], marks: &mut [u8]) -> Result<(), Refusal>
    requires { (6 * (length rows.now / 6) ≡ length rows.now) × Blank rows.now marks.old }
    ensures { result ≡ row_causes form bounds rows.now }
{
    let kinds = KindTable::new();
    row_causes(&kinds, form, bounds, rows, marks)
}

// The causes 1 to 6, which both forms share. The marks have room for the rows of the form, and none is set.
pub fn structural_refusal(
    form: Form,
    header: &[i32],
    rows: &[i32],
    marks: &mut [u8],
) -> Result<(), Refusal>
    requires { Unmarked form marks.old }
    ensures { result ≡ structural_refusal form header.now rows.now }
{
    if !header_fits(form, header) {
        return Err(Refusal {
            cause: Cause::Header,
            place: 0,
        });
    }
    if !count_fits(form, rows.len()) {
        return Err(Refusal {
            cause: Cause::RowCount,
            place: 0,
        });
    }
    table_causes(form, bounds_of(form, header), rows, marks)
}
