// The join of two source programs.
ghost use Rattle.std.specs.Prelude.{◌≡◌};
ghost use Rattle.joiner.specs.Joining.{answer_and_rows, join_result, WritesJoin};

use words::Refusal;

// Writes the rows of a program that runs the first, then the second, under their header, and answers how many words they have. The second
// promise is about the words that were written: they are a legal program, and its run is that of the first followed by that of the second,
// with every budget and with no limit on steps.
pub fn join(
    header: &[i32],
    rows: &[i32],
    second_header: &[i32],
    second_rows: &[i32],
    out_rows: &mut [i32],
) -> Result<usize, Refusal>
    ensures out_rows_after { answer_and_rows result out_rows.new ≡ join_result header.now rows.now second_header.now second_rows.now out_rows.old }
    ensures writes_join { WritesJoin header.now rows.now second_rows.now result out_rows.new }
{
    joiner::join(header, rows, second_header, second_rows, out_rows)
}
