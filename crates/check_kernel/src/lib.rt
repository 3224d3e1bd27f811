// The check of kernel programs: what both forms share, then causes 7, 9, 12, 13 and 19, then those of functions.
#![tactic(auto)]

pub mod functions; // functions.rt: the causes of functions, with room for what is known of the rows
pub mod parameters; // parameters.rt: cause 19, two parameters of one function with one word

ghost use Rattle.std.specs.Prelude.{◌≡◌, false};
ghost use Rattle.words.specs.Links.{link};
ghost use Rattle.check_structure.specs.Structured.{Tree};
ghost use Rattle.words.specs.Search.{lowest_row};
ghost use Rattle.check_structure.specs.Links.{too_deep};
ghost use Rattle.check_structure.specs.Refusal.{structural_refusal};
ghost use Rattle.words.specs.declared.Form.TheVariants.{Kernel};
ghost use Rattle.check_labels.specs.Passes.{LabelNumbers};
ghost use Rattle.check_function_causes.specs.Functions.{is_definition};
ghost use Rattle.check_kernel.specs.Refusal.{form_causes, kernel_causes, refusal as refusal_of};

use check_grammar::kinds::KindTable;
use check_kernel_statements::lowest_not_kernel_form;
use check_labels::labels::lowest_label_fault;
use check_structure::causes::{at, structural_refusal};
use check_structure::depth::lowest_deep_by;
use functions::{functions_refusal, lowest_return_outside};
use parameters::lowest_parameter_twice;
use words::{Cause, Form, Refusal};

// Cause 9, with the table of kinds: it is built here, once, and lent on.
fn lowest_deep_row(rows: &[i32]) -> Option<usize>
    requires { Tree rows.now }
    ensures { result ≡ lowest_row rows.now (too_deep Kernel rows.now) }
{
    let kinds = KindTable::new();
    lowest_deep_by(&kinds, Form::Kernel, rows)
}

// Causes 9, 12 and 13, in order.
fn form_causes(rows: &[i32]) -> Result<(), Refusal>
    requires { Tree rows.now × (link rows.now 0 5 ≡ 0) × LabelNumbers rows.now }
    ensures { result ≡ form_causes rows.now }
{
    at(Cause::TooDeep, lowest_deep_row(rows))?;
    at(Cause::NotKernelForm, lowest_not_kernel_form(rows))?;
    at(Cause::LabelFault, lowest_label_fault(rows))
}

// The causes after 6, in order: 7; 9, 12 and 13; 19; 23 and 24.
fn kernel_causes(rows: &[i32]) -> Result<(), Refusal>
    requires { Tree rows.now × (link rows.now 0 5 ≡ 0) × LabelNumbers rows.now × (is_definition rows.now 0 ≡ false) }
    ensures { result ≡ kernel_causes rows.now }
{
    at(Cause::Misplaced, lowest_return_outside(rows))?;
    form_causes(rows)?;
    at(Cause::DeclaredTwice, lowest_parameter_twice(rows))?;
    functions_refusal(rows)
}

// Causes 1 to 6, with room for the marks of a kernel program.
fn shared_refusal(header: &[i32], rows: &[i32]) -> Result<(), Refusal>
    ensures { result ≡ structural_refusal Kernel header.now rows.now }
{
    let mut marks = [0u8; 40980];
    structural_refusal(Form::Kernel, header, rows, &mut marks)
}

// The check of a kernel program: "The kernel check accepts the legal kernel programs and no others."
pub fn check(header: &[i32], rows: &[i32]) -> Result<(), Refusal>
    ensures { result ≡ refusal_of header.now rows.now }
{
    shared_refusal(header, rows)?;
    kernel_causes(rows)
}
