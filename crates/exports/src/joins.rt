// The join of two source programs.
ghost use Rattle.std.specs.Prelude.{◌≡◌};
ghost use Rattle.joiner.specs.Joining.{join_result};
ghost use Rattle.exports.specs.Numbers.{answer_of, JoinsIfDone};

use super::Answer;

// Writes the rows of a program that runs the first, then the second. The last promise is about the words that are written.
#[unsafe(no_mangle)]
pub extern "C" fn clight_join(
    header: &[i32],
    rows: &[i32],
    second_header: &[i32],
    second_rows: &[i32],
    out_rows: &mut [i32],
) -> Answer
    ensures value { result ≡ answer_of (join_result header.now rows.now second_header.now second_rows.now out_rows.old).numbers }
    ensures out_rows_after { out_rows.new ≡ (join_result header.now rows.now second_header.now second_rows.now out_rows.old).rows }
    ensures joins_if_done { JoinsIfDone header.now rows.now second_rows.now result out_rows.new }
{
    clight::joins::join(header, rows, second_header, second_rows, out_rows).into()
}
