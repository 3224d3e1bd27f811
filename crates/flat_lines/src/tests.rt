// The own lines of an if and of a while: the test and the jump around the lines of their branches.
ghost use Rattle.std.specs.Prelude.{◌≡◌, true, ◌+◌, ◌*◌, ◌≤◌, ◌<◌, length};
ghost use Rattle.words.specs.Table.{row_count};
ghost use Rattle.language.specs.Decode.{expression_at};
ghost use Rattle.check_kernel_statements.specs.Statements.{is_atom};
ghost use Rattle.flat_kernel_rows.specs.KernelTable.{KernelTable};
ghost use Rattle.flat_fate.specs.Code.{operand_of, always, if_lines, while_lines};
ghost use Rattle.flat_rows.specs.Places.{if_own, while_own};
ghost use Rattle.flat_rows.specs.LinesPut.{put_all};

use super::lines::{put_jump, put_test};
use flat_sizes::sizes::is_always;

// The own lines of an if whose branches have so many lines: the test, where a branch has a line, and the jump over the second.
pub fn put_if(out: &mut [i32], rows: &[i32], test: usize, yes: usize, no: usize, line: usize)
    requires { KernelTable rows.now × (test < row_count rows.now) × (is_atom rows.now test ≡ true) × (5 * (line + if_lines yes no) ≤ length out.old) × (line + if_lines yes no < 65536) }
    ensures { out.new ≡ put_all (if_own (operand_of (expression_at rows.now test)) yes no line) out.old }
{
    if yes == 0 {
        if no == 0 {
            return;
        }
        put_test(out, rows, 44, test, line, line + (1 + no));
        return;
    }
    if no == 0 {
        put_test(out, rows, 43, test, line, line + (1 + yes));
        return;
    }
    put_test(out, rows, 43, test, line, line + (2 + yes));
    put_jump(out, line + 1 + yes, line + (2 + (yes + no)));
}

// The own lines of a while whose body has so many lines: the test, unless it always holds, and the jump back.
pub fn put_while(out: &mut [i32], rows: &[i32], test: usize, body: usize, line: usize)
    requires { KernelTable rows.now × (test < row_count rows.now) × (is_atom rows.now test ≡ true) × (5 * (line + while_lines (always (operand_of (expression_at rows.now test))) body) ≤ length out.old) × (line + while_lines (always (operand_of (expression_at rows.now test))) body < 65536) }
    ensures { out.new ≡ put_all (while_own (always (operand_of (expression_at rows.now test))) (operand_of (expression_at rows.now test)) body line) out.old }
{
    if is_always(rows, test) {
        put_jump(out, line + body, line);
        return;
    }
    put_test(out, rows, 43, test, line, line + (body + 2));
    put_jump(out, line + 1 + body, line);
}
