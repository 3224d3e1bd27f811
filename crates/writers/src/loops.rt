// The writers of loops and of their parts: the test, a round and its end. While, do and for have one form.
ghost use Rattle.std.specs.Prelude.{◌≡◌, false, length, ◌≤◌, ◌<◌};
ghost use Rattle.language_emission.specs.Emission.{emit_items};
ghost use Rattle.language.specs.Decode.{part_at};
ghost use Rattle.language.specs.Trees.{none};
ghost use Rattle.writers_steps.specs.Asks.{Writes};
ghost use Rattle.writers_rows.specs.Room.{Room};
ghost use Rattle.translation.specs.Translate.{test_code};
ghost use Rattle.measures_table.specs.Parts.{called_in};
ghost use Rattle.words.specs.Over.{over};
ghost use Rattle.writers.specs.Asks.{round_size, loop_size, LoopFits, TestAsks, RoundEndAsks};
ghost use Rattle.writers.specs.Code.{round_code, whole_loop, round_end};
ghost use Rattle.words.specs.Table.{row_count};
ghost use Rattle.translation.specs.TranslateSize.{test_size as test_size_of};
ghost use Rattle.measures_table.specs.Measures.{Measured};

use super::lists::statement_size;
use super::statements::write_statement;
use super::{Exits, Loop, StatementPosition};
use translation::Use;
use writers_expressions::expressions::write_expression;
use writers_rows::control::{put_exit, put_label, put_loop};
use writers_rows::rows::more;
use writers_steps::atoms::{atom_at, operand_size};
use writers_steps::{WritePosition, WriteSource};

// The rows of a loop's test; an absent one takes none.
pub fn test_size(source: &WriteSource<'_>, test: usize) -> usize
    requires { Measured source.now.rows.now source.now.table.now × (test < row_count source.now.rows.now) × (test_size_of (called_in source.now.rows.now) (part_at source.now.rows.now test) ≤ 40980) }
    ensures { result ≡ test_size_of (called_in source.now.rows.now) (part_at source.now.rows.now test) }
{
    if test == 0 {
        return 0;
    }
    operand_size(source, test, Use::Wanted) + 5
}

// A loop's test: where it is 0, go to the label.
pub fn write_test(
    source: &WriteSource<'_>,
    test: usize,
    label: usize,
    base: usize,
    follows: bool,
    out: &mut [i32],
)
    requires { Writes source.now × TestAsks source.now.rows.now test label base (length out.old) }
    ensures { out.new ≡ over (emit_items follows (test_code (called_in source.now.rows.now) source.now.store (part_at source.now.rows.now test) label none) base) out.old }
{
    if test == 0 {
        return;
    }
    let n = operand_size(source, test, Use::Wanted);
    let atom = atom_at(source, test, 0);
    write_expression(
        source,
        test,
        Use::Wanted,
        WritePosition {
            level: 0,
            base,
            follows: true,
        },
        out,
    );
    put_exit(atom, label, base + n, follows, &mut out[6 * n..]);
}

// The end of a round: the label for continue, the step, and a test behind the body.
pub fn write_round_end(
    source: &WriteSource<'_>,
    action: usize,
    after: usize,
    label: usize,
    base: usize,
    out: &mut [i32],
)
    requires { Writes source.now × RoundEndAsks source.now.rows.now action after label base (length out.old) }
    ensures { out.new ≡ over (emit_items false (round_end source.now.store source.now.rows.now (part_at source.now.rows.now action) (part_at source.now.rows.now after) label) base) out.old }
{
    let k = operand_size(source, action, Use::Dropped);
    let end = test_size(source, after);
    let n = 1 + k;
    let then = more(false, end);
    put_label(label + 1, base, more(then, k), out);
    write_expression(
        source,
        action,
        Use::Dropped,
        WritePosition {
            level: 0,
            base: base + 1,
            follows: then,
        },
        &mut out[6..],
    );
    write_test(source, after, label, base + n, false, &mut out[6 * n..]);
}

// The rows of a round.
pub fn round_size(source: &WriteSource<'_>, parts: Loop) -> usize
    requires { Measured source.now.rows.now source.now.table.now × LoopFits source.now.rows.now parts 0 × (round_size source.now.rows.now parts ≤ 40980) }
    ensures { result ≡ round_size source.now.rows.now parts }
{
    let before = test_size(source, parts.before);
    let body = statement_size(source, parts.body);
    let action = operand_size(source, parts.action, Use::Dropped);
    let end = 1 + action + test_size(source, parts.after);
    before + body + end
}

// A loop: its first part, the loop itself, and the label behind it.
#[cycle(write_statements)]
pub(crate) fn write_loop(
    source: &WriteSource<'_>,
    parts: Loop,
    label: usize,
    base: usize,
    follows: bool,
    out: &mut [i32],
)
    requires { Writes source.now × LoopFits source.now.rows.now parts label × Room (loop_size source.now.rows.now parts) base (length out.old) }
    ensures { out.new ≡ over (emit_items follows (whole_loop source.now.store source.now.rows.now parts label) base) out.old }
{
    let first = parts.first;
    let k = operand_size(source, first, Use::Dropped);
    let n = k + 3;
    let round = round_size(source, parts);
    let m = n + round;
    write_expression(
        source,
        first,
        Use::Dropped,
        WritePosition {
            level: 0,
            base,
            follows: true,
        },
        out,
    );
    put_loop(base + k, round, &mut out[6 * k..]);
    write_round(source, parts, label, base + n, &mut out[6 * n..]);
    put_label(label, base + m, follows, &mut out[6 * m..]);
}

// A round of a loop.
#[cycle(write_statements)]
fn write_round(source: &WriteSource<'_>, parts: Loop, label: usize, base: usize, out: &mut [i32])
    requires { Writes source.now × LoopFits source.now.rows.now parts label × Room (round_size source.now.rows.now parts) base (length out.old) }
    ensures { out.new ≡ over (emit_items false (round_code source.now.store source.now.rows.now parts label) base) out.old }
{
    let before = parts.before;
    let body = parts.body;
    let k = test_size(source, before);
    let n = k + statement_size(source, body);
    let inner = Exits {
        breaking: label,
        continuing: label + 1,
    };
    write_test(source, before, label, base, true, out);
    write_statement(
        source,
        body,
        StatementPosition {
            exits: inner,
            label: label + 2,
            base: base + k,
        },
        true,
        &mut out[6 * k..],
    );
    write_round_end(
        source,
        parts.action,
        parts.after,
        label,
        base + n,
        &mut out[6 * n..],
    );
}
