// The two roles of kind 58: which rows are parameters, and the pass that marks them.
#![tactic(auto)]

ghost use Rattle.std.specs.Prelude.{◌≡◌, ◌+◌, ◌*◌, ◌/◌, ◌<◌, ◌≤◌, eqb, length, get_or};
ghost use Rattle.words_roles.specs.Roles.{is_definition};
ghost use Rattle.words_roles.specs.Passes.{parameter_link, marked_link, Blank, Parameters};

use words::declarations::is_declaration;
use words::table::number_at;

pub fn is_definition(rows: &[i32], row: usize) -> bool
    requires { 6 * row < length rows.now }
    ensures { result ≡ is_definition rows.now row }
{
    number_at(rows, row, 0) == 59
}

// The row that a row makes a parameter, if it is a later one of kind 58. The row's own mark says whether it is a parameter.
fn parameter_link(rows: &[i32], mark: u8, row: usize) -> usize
    requires { 6 * row + 5 < length rows.now }
    ensures { result ≡ parameter_link (eqb mark 1) rows.now row }
{
    if is_definition(rows, row) {
        return number_at(rows, row, 2);
    }
    if mark == 1 {
        return number_at(rows, row, 5);
    }
    0
}

// Marks that row, if it is one.
fn mark_link(rows: &[i32], marks: &mut [u8], row: usize, linked: usize)
    requires { length rows.now / 6 ≤ length marks.old }
    ensures { marks.new ≡ marked_link rows.now row linked marks.old }
{
    if row < linked {
        if linked < rows.len() / 6 {
            if is_declaration(rows, linked) {
                marks[linked] = 1;
            }
        }
    }
}

// Marks the parameters, in one pass: a row's own mark is set before its turn comes.
pub fn mark_parameters(rows: &[i32], marks: &mut [u8])
    requires { Blank rows.now marks.old }
    ensures { (length marks.new ≡ length marks.old) × Parameters rows.now marks.new }
{
    for row in 0..rows.len() / 6 {
        let linked = parameter_link(rows, marks[row], row);
        mark_link(rows, marks, row, linked);
    }
}
