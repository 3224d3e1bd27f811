// The check of plain kernel programs, which have no functions: the kernel check's causes, then 25. The flat list takes no others.
#![tactic(auto)]

ghost use Rattle.std.specs.Prelude.{◌≡◌};
ghost use Rattle.words.specs.Search.{lowest_row};
ghost use Rattle.check_function_causes.specs.Functions.{is_definition};
ghost use Rattle.check_plain.specs.Refusal.{plain_refusal};

use check_grammar::search::lowest_row;
use check_structure::causes::at;
use words::{Cause, Refusal};
use words_roles::is_definition;

// The row of the first function.
fn lowest_definition(rows: &[i32]) -> Option<usize>
    ensures { result ≡ lowest_row rows.now (is_definition rows.now) }
{
    let row = lowest_row(rows, |row| is_definition(rows, row))?;
    Some(row)
}

// The check of a plain kernel program.
pub fn check(header: &[i32], rows: &[i32]) -> Result<(), Refusal>
    ensures { result ≡ plain_refusal header.now rows.now }
{
    check_kernel::check(header, rows)?;
    at(Cause::DefinesFunctions, lowest_definition(rows))
}
