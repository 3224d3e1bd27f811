// Chains: the gotos and labels of one label number, in order. A number past the table ends a chain.
ghost use Rattle.std.specs.Prelude.{◌+◌, ◌/◌, ◌<◌, length};
ghost use Rattle.check_structure.specs.Structured.{Tree};
ghost use Rattle.check_labels.specs.Passes.{LabelNumbers, Heads, Chain};

use check_grammar::between;
use check_structure::row_number::narrow;
use words::table::number_at;

// Puts a goto or label at the head of its number's chain.
fn chain_row(rows: &[i32], heads: &mut [u16], chain: &mut [u16], row: usize)
    requires { Tree rows.now × LabelNumbers rows.now × (row < length rows.now / 6) × Heads rows.now (row + 1) heads.old × Chain rows.now (row + 1) chain.old }
    ensures { Heads rows.now row heads.new × Chain rows.now row chain.new }
{
    if between(52, 53, number_at(rows, row, 0)) {
        let number = number_at(rows, row, 1);
        chain[row] = heads[number];
        heads[number] = narrow(row);
    }
}

// All chains. The rows are taken from the last to the first, so that chains go upward.
pub fn chain_rows(rows: &[i32], heads: &mut [u16], chain: &mut [u16])
    requires { Tree rows.now × LabelNumbers rows.now × Heads rows.now (length rows.now / 6) heads.old × Chain rows.now (length rows.now / 6) chain.old }
    ensures { Heads rows.now 0 heads.new × Chain rows.now 0 chain.new }
{
    let mut row = rows.len() / 6;
    while row > 0 {
        row -= 1;
        chain_row(rows, heads, chain, row);
    }
}
