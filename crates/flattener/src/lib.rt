// The flattener: writes the flat list of a legal kernel program without functions.
#![tactic(auto)]

ghost use Rattle.std.specs.Prelude.{◌≡◌};
ghost use Rattle.flat_kernel_rows.specs.KernelTable.{KernelTable};
ghost use Rattle.flat_fate.specs.FlatWords.{flattened};
ghost use Rattle.flat_sizes.specs.Tables.{Sized};
ghost use Rattle.flat_lines.specs.Lent.{Exact};
ghost use Rattle.flattener.specs.Flattening.{answer_and_list, written, flatten_result, WritesList};

use check_structure::row_number::wide;
use flat_lines::rows::put_rows;
use flat_sizes::places::place_rows;
use flat_sizes::sizes::size_rows;
use words::{Cause, Refusal};

// The lines of rows and labels, then the words, into a list that has room for them and no more.
fn write_sized(rows: &[i32], sizes: &[u16], out: &mut [i32])
    requires { KernelTable rows.now × Sized rows.now 0 sizes.now × Exact rows.now out.old }
    ensures { out.new ≡ flattened rows.now }
{
    let mut lines = [0u16; 40980];
    let mut labels = [0u16; 40980];
    place_rows(rows, sizes, &mut lines, &mut labels);
    put_rows(out, rows, sizes, &lines, &labels);
}

// Writes the list of a plain kernel table: cause 10, before the first word is written.
fn flatten_accepted(rows: &[i32], out: &mut [i32]) -> Result<usize, Refusal>
    requires { KernelTable rows.now }
    ensures { answer_and_list result out.new ≡ written (flattened rows.now) out.old }
{
    let mut sizes = [0u16; 40980];
    size_rows(rows, &mut sizes);
    let words = 5 * wide(sizes[0]);
    if words > out.len() {
        return Err(Refusal {
            cause: Cause::NoRoom,
            place: 0,
        });
    }
    write_sized(rows, &sizes, &mut out[..words]);
    Ok(words)
}

// Flattens a kernel program: the kernel check's causes, 25 where it has functions, then 10. The second promise is about the words that were
// written: the list's own check takes them, they are as many as they must be, and both runs share their fate.
pub fn flatten(header: &[i32], rows: &[i32], out: &mut [i32]) -> Result<usize, Refusal>
    ensures out_after { answer_and_list result out.new ≡ flatten_result header.now rows.now out.old }
    ensures writes_list { WritesList header.now rows.now result out.new }
{
    let verdict = check_plain::check(header, rows);
    match verdict {
        Ok(()) => flatten_accepted(rows, out),
        Err(refusal) => Err(refusal),
    }
}
