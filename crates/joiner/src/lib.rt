// The join of two source programs: one that runs the first, then the second. Both are checked, and their join is not: that it is legal is a
// theorem.
#![tactic(auto)]

ghost use Rattle.std.specs.Prelude.{◌≡◌, leb, length};
ghost use Rattle.check_structure.specs.Refusal.{unless};
ghost use Rattle.join.specs.Join.{joined_rows};
ghost use Rattle.join_rows.specs.Parts.{Parts};
ghost use Rattle.joiner.specs.Joining.{answer_and_rows, join_after, join_result, WritesJoin};

use join_rows::rows::write_joined;
use words::{Cause, Refusal};

pub mod causes; // causes.rt: what a join refuses, before it writes
pub mod declarations; // declarations.rt: the 65th declaration

// Writes the rows of a join that has no cause but 10, which comes before the first word is written.
fn write_join(first: &[i32], second: &[i32], out: &mut [i32]) -> Result<usize, Refusal>
    requires { Parts first.now second.now }
    ensures { answer_and_rows result out.new ≡ join_after (unless (leb (length (joined_rows first.now second.now)) (length out.old)) 10) (joined_rows first.now second.now) out.old }
{
    let words = 6 + first.len() + second.len();
    if words > out.len() {
        return Err(Refusal {
            cause: Cause::NoRoom,
            place: 0,
        });
    }
    write_joined(first, second, out);
    Ok(words)
}

// Joins two source programs. The first promise says what is answered and what stands in the table after it, refusals too; the second, of the
// words that stand there, that they are a legal program which runs the first and then the second.
pub fn join(
    header: &[i32],
    rows: &[i32],
    second_header: &[i32],
    second_rows: &[i32],
    out_rows: &mut [i32],
) -> Result<usize, Refusal>
    ensures out_rows_after { answer_and_rows result out_rows.new ≡ join_result header.now rows.now second_header.now second_rows.now out_rows.old }
    ensures writes_join { WritesJoin header.now rows.now second_rows.now result out_rows.new }
{
    causes::join_refusal(header, rows, second_header, second_rows)?;
    write_join(rows, second_rows, out_rows)
}
