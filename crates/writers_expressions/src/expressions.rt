// The writers of expressions: the operands' code, and then what the expression does with their values.
ghost use Rattle.std.specs.Prelude.{◌≡◌, false, ◌+◌, ◌*◌, length};
ghost use Rattle.language.specs.Trees.{block};
ghost use Rattle.language.specs.Decode.{expression_at, argument_list_at, part_at};
ghost use Rattle.translation.specs.Translate.{expression_code, operand_code};
ghost use Rattle.language_emission.specs.Emission.{emit_statement, emit_items};
ghost use Rattle.measures_table.specs.Parts.{called_in};
ghost use Rattle.words.specs.Over.{over};
ghost use Rattle.writers_rows.specs.Room.{Room};
ghost use Rattle.writers_rows.specs.Atoms.{AtomFits};
ghost use Rattle.writers_expressions.specs.Code.{last_code, branch_code, choice_code};
ghost use Rattle.writers_steps.specs.Asks.{Writes};
ghost use Rattle.writers_calls.specs.Arguments.{code_by};
ghost use Rattle.writers_expressions.specs.Asks.{OperandAsks, CalledAsks, ArgumentsAsk, LastAsks, branch_size, BranchFits};

use super::Branch;
use super::branches::{branch_size, choice_at, finish_size, put_finish};
use measures_expressions::parts::own_at;
use measures_table::uses::second_use;
use translation::Use;
use words::table::number_at;
use writers_calls::arguments::{argument_count, argument_value, arguments_taken};
use writers_calls::called::{call_at, call_copies, is_call};
use writers_calls::calls::put_call;
use writers_rows::KernelAtom;
use writers_rows::control::{put_block, put_if};
use writers_rows::rows::{behind, more};
use writers_steps::atoms::{operand_copied, operand_size, target_word};
use writers_steps::straight::{put_hold, put_straight};
use writers_steps::{WritePosition, WriteSource};

// The code of the expression at a link, worked out at a level for a use of its value; an absent one has none.
#[cycle(write_expressions)]
pub fn write_expression(
    source: &WriteSource<'_>,
    row: usize,
    usage: Use,
    at: WritePosition,
    out: &mut [i32],
)
    requires { Writes source.now × OperandAsks source.now.rows.now row usage at.level at.base (length out.old) }
    ensures { out.new ≡ over (emit_items at.follows (operand_code (called_in source.now.rows.now) source.now.store (part_at source.now.rows.now row) usage at.level) at.base) out.old }
{
    if row == 0 {
        return;
    }
    if is_call(source.rows, row) {
        write_call(source, row, usage, at, out);
        return;
    }
    let copied = operand_copied(source, row);
    let own = own_at(source.rows, source.table, row, copied);
    let first = own.first;
    let second = own.second;
    let first_use = own.first_use;
    let second_use = second_use(own.passes, usage);
    let above = at.level + own.above;
    let copy = 4 * copied;
    let m = operand_size(source, first, first_use);
    let h = m + copy;
    let k = operand_size(source, second, second_use);
    let n = h + k;
    let last = operand_size(source, row, usage) - n;
    let then = more(at.follows, last);
    let held = more(then, k);
    write_expression(
        source,
        first,
        first_use,
        WritePosition {
            follows: more(held, copy),
            ..at
        },
        out,
    );
    put_hold(
        source,
        first,
        copied,
        WritePosition {
            base: at.base + m,
            follows: held,
            ..at
        },
        &mut out[6 * m..],
    );
    write_expression(
        source,
        second,
        second_use,
        WritePosition {
            level: above,
            base: at.base + h,
            follows: then,
        },
        &mut out[6 * h..],
    );
    write_last(
        source,
        row,
        usage,
        WritePosition {
            base: at.base + n,
            ..at
        },
        &mut out[6 * n..],
    );
}

// The call at a row: its arguments' code, from the last to the first, and then the call on what holds them.
#[cycle(write_expressions)]
fn write_call(source: &WriteSource<'_>, row: usize, usage: Use, at: WritePosition, out: &mut [i32])
    requires { Writes source.now × CalledAsks source.now.rows.now row usage at.level at.base (length out.old) }
    ensures { out.new ≡ over (emit_items at.follows (expression_code (called_in source.now.rows.now) source.now.store (expression_at source.now.rows.now row) usage at.level) at.base) out.old }
{
    let call = call_at(source.rows, row);
    let copies = call_copies(source, row);
    let count = argument_count(source.rows, call.first);
    let number = target_word(source.store, at.level, usage);
    let own = 4 + 2 * count;
    let n = operand_size(source, row, usage) - own;
    write_arguments(
        source,
        call.first,
        count,
        copies,
        n,
        WritePosition {
            follows: true,
            ..at
        },
        out,
    );
    put_call(
        source,
        number,
        call,
        copies,
        own,
        WritePosition {
            base: at.base + n,
            ..at
        },
        &mut out[6 * n..],
    );
}

// The code of the arguments from a link on, which are `count` and take `size` rows; those that are copied are the binary digits of `copies`. Each
// stands above those behind it in the list.
#[cycle(write_expressions)]
fn write_arguments(
    source: &WriteSource<'_>,
    argument: usize,
    count: usize,
    copies: usize,
    size: usize,
    at: WritePosition,
    out: &mut [i32],
)
    requires { Writes source.now × ArgumentsAsk source.now.rows.now argument count copies at.level size at.base (length out.old) }
    ensures { out.new ≡ over (emit_items at.follows (code_by (called_in source.now.rows.now) source.now.store (argument_list_at source.now.rows.now argument) copies at.level) at.base) out.old }
{
    if count == 0 {
        return;
    }
    let e = argument_value(source.rows, argument);
    let next = number_at(source.rows, argument, 5);
    let others = copies / 2;
    let copied = copies % 2;
    let above = at.level + arguments_taken(source, next, others);
    let copy = 4 * copied;
    let k = operand_size(source, e, Use::Wanted);
    let rest = size - (k + copy);
    let n = rest + k;
    let held = more(at.follows, copy);
    write_arguments(
        source,
        next,
        count - 1,
        others,
        rest,
        WritePosition {
            follows: more(held, k),
            ..at
        },
        out,
    );
    write_expression(
        source,
        e,
        Use::Wanted,
        WritePosition {
            level: above,
            base: at.base + rest,
            follows: held,
        },
        &mut out[6 * rest..],
    );
    put_hold(
        source,
        e,
        copied,
        WritePosition {
            level: above,
            base: at.base + n,
            ..at
        },
        &mut out[6 * n..],
    );
}

// What the expression at a row, which is no call, does behind its first two operands.
#[cycle(write_expressions)]
fn write_last(source: &WriteSource<'_>, row: usize, usage: Use, at: WritePosition, out: &mut [i32])
    requires { Writes source.now × LastAsks source.now.rows.now row usage at.level at.base (length out.old) }
    ensures { out.new ≡ over (emit_items at.follows (last_code (called_in source.now.rows.now) source.now.store (expression_at source.now.rows.now row) usage at.level) at.base) out.old }
{
    let choice = choice_at(source, row, at.level);
    match choice {
        Some((test, yes, no)) => write_choice(source, test, yes, no, at, out),
        None => put_straight(source, row, usage, at, out),
    }
}

// An if with the two branches.
#[cycle(write_expressions)]
fn write_choice(
    source: &WriteSource<'_>,
    test: KernelAtom,
    yes: Branch,
    no: Branch,
    at: WritePosition,
    out: &mut [i32],
)
    requires writing { Writes source.now × AtomFits test × BranchFits source.now.rows.now yes at.level × BranchFits source.now.rows.now no at.level }
    requires room { Room (2 + branch_size source.now.rows.now yes + branch_size source.now.rows.now no) at.base (length out.old) }
    ensures { out.new ≡ over (emit_items at.follows (choice_code source.now.store source.now.rows.now test yes no at.level) at.base) out.old }
{
    let n = 2 + branch_size(source, yes);
    let m = n + branch_size(source, no);
    put_if(
        test,
        at.base,
        at.base + n,
        behind(at.follows, at.base + m),
        out,
    );
    write_branch(source, yes, at.level, at.base + 2, &mut out[12..]);
    write_branch(source, no, at.level, at.base + n, &mut out[6 * n..]);
}

// A branch: its block, its expression, and its end.
#[cycle(write_expressions)]
fn write_branch(
    source: &WriteSource<'_>,
    branch: Branch,
    level: usize,
    base: usize,
    out: &mut [i32],
)
    requires { Writes source.now × BranchFits source.now.rows.now branch level × Room (branch_size source.now.rows.now branch) base (length out.old) }
    ensures { out.new ≡ over (emit_statement (block (branch_code source.now.store source.now.rows.now branch level)) base 0) out.old }
{
    let row = branch.row;
    let end = branch.end;
    let atom = branch.atom;
    let k = operand_size(source, row, Use::Wanted);
    let last = finish_size(end);
    let n = 1 + k;
    put_block(behind(more(false, k + last), base + 1), 0, out);
    write_expression(
        source,
        row,
        Use::Wanted,
        WritePosition {
            level,
            base: base + 1,
            follows: more(false, last),
        },
        &mut out[6..],
    );
    put_finish(end, atom, source.store, level, base + n, &mut out[6 * n..]);
}
