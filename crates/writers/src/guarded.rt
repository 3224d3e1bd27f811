// The writers of the guarded forms and their arms.
ghost use Rattle.std.specs.Prelude.{◌≡◌, true, length};
ghost use Rattle.language_emission.specs.Emission.{emit_items};
ghost use Rattle.language.specs.Decode.{expression_at, statement_at, arms_at, arm_list_at};
ghost use Rattle.language.specs.Trees.{guarded_if, guarded_do, no_arm, arm};
ghost use Rattle.writers_steps.specs.Asks.{Writes};
ghost use Rattle.translation.specs.Translate.{statement_code, arms_code};
ghost use Rattle.measures_table.specs.Parts.{called_in};
ghost use Rattle.words.specs.Over.{over};
ghost use Rattle.writers.specs.Asks.{ArmsAsk, ArmAsks, GuardedAsks, ChoiceAsks, RoundsAsk};
ghost use Rattle.writers.specs.Code.{exits_of};
ghost use Rattle.writers.specs.Items.{first_only};

use super::StatementPosition;
use super::lists::{arms_labels, arms_size, statement_size};
use super::statements::write_statement;
use language_shapes::rows::arm_at;
use translation::Use;
use words::table::number_at;
use writers_expressions::expressions::write_expression;
use writers_rows::control::{put_empty, put_loop};
use writers_rows::guarded::{put_arm_end, put_arm_head, put_choice_end, put_rounds_end};
use writers_steps::atoms::{atom_at, operand_size};
use writers_steps::{WritePosition, WriteSource};

// A guarded if: its arms, an abort, and the label behind it.
#[cycle(write_statements)]
pub(crate) fn write_choice(
    source: &WriteSource<'_>,
    arms: usize,
    at: StatementPosition,
    follows: bool,
    out: &mut [i32],
)
    requires { Writes source.now × ChoiceAsks source.now.rows.now arms at.exits at.label at.base (length out.old) }
    ensures { out.new ≡ over (emit_items follows (statement_code (called_in source.now.rows.now) source.now.store (guarded_if (arm_list_at source.now.rows.now arms)) (exits_of at.exits) at.label) at.base) out.old }
{
    let n = arms_size(source, arms);
    write_arms(
        source,
        arms,
        at.label,
        StatementPosition {
            label: at.label + 1,
            ..at
        },
        out,
    );
    put_choice_end(at.label, at.base + n, follows, &mut out[6 * n..]);
}

// A guarded do: a loop around its arms, and the label behind it; without arms an empty statement.
#[cycle(write_statements)]
pub(crate) fn write_rounds(
    source: &WriteSource<'_>,
    arms: usize,
    at: StatementPosition,
    follows: bool,
    out: &mut [i32],
)
    requires { Writes source.now × RoundsAsk source.now.rows.now arms at.exits at.label at.base (length out.old) }
    ensures { out.new ≡ over (emit_items follows (statement_code (called_in source.now.rows.now) source.now.store (guarded_do (arm_list_at source.now.rows.now arms)) (exits_of at.exits) at.label) at.base) out.old }
{
    let n = arms_size(source, arms);
    if n == 0 {
        put_empty(at.base, follows, out);
        return;
    }
    let m = 3 + n;
    put_loop(at.base, n + 2, out);
    write_arms(
        source,
        arms,
        at.label + 1,
        StatementPosition {
            label: at.label + 2,
            base: at.base + 3,
            ..at
        },
        &mut out[18..],
    );
    put_rounds_end(at.label, at.base + m, follows, &mut out[6 * m..]);
}

// The arms at a link, one behind the other. Their labels begin at `label`; each goes to the label `target`. More follows.
#[cycle(write_statements)]
fn write_arms(
    source: &WriteSource<'_>,
    arms: usize,
    target: usize,
    at: StatementPosition,
    out: &mut [i32],
)
    requires { Writes source.now × ArmsAsk source.now.rows.now arms at.exits target at.label at.base (length out.old) }
    ensures { out.new ≡ over (emit_items true (arms_code (called_in source.now.rows.now) source.now.store (arm_list_at source.now.rows.now arms) (exits_of at.exits) target at.label) at.base) out.old }
{
    let size = arms_size(source, arms);
    let last = at.label + arms_labels(source, arms);
    let mut arm = arms;
    let mut from = at.label;
    let mut n: usize = 0;
    // Kept as a while: it follows the links of the arms; what they take tells whether any are left.
    while n < size {
        let next = number_at(source.rows, arm, 5);
        write_arm(
            source,
            arm,
            target,
            StatementPosition {
                label: from,
                base: at.base + n,
                ..at
            },
            &mut out[6 * n..],
        );
        n = size - arms_size(source, next);
        from = last - arms_labels(source, next);
        arm = next;
    }
}

// The arm at a row.
#[cycle(write_statements)]
fn write_arm(
    source: &WriteSource<'_>,
    row: usize,
    target: usize,
    at: StatementPosition,
    out: &mut [i32],
)
    requires { Writes source.now × ArmAsks source.now.rows.now row at.exits target at.label at.base (length out.old) }
    ensures { out.new ≡ over (emit_items true (arms_code (called_in source.now.rows.now) source.now.store (first_only (arms_at source.now.rows.now row)) (exits_of at.exits) target at.label) at.base) out.old }
{
    let shape = arm_at(source.rows, row);
    match shape {
        Some((guard, body)) => write_guarded(source, guard, body, target, at, out),
        None => {}
    }
}

// An arm by its links: its guard; where that is true its block, and on to the label `target`.
#[cycle(write_statements)]
fn write_guarded(
    source: &WriteSource<'_>,
    guard: usize,
    body: usize,
    target: usize,
    at: StatementPosition,
    out: &mut [i32],
)
    requires { Writes source.now × GuardedAsks source.now.rows.now guard body at.exits target at.label at.base (length out.old) }
    ensures { out.new ≡ over (emit_items true (arms_code (called_in source.now.rows.now) source.now.store (arm (expression_at source.now.rows.now guard) (statement_at source.now.rows.now body) no_arm) (exits_of at.exits) target at.label) at.base) out.old }
{
    let k = operand_size(source, guard, Use::Wanted);
    let n = k + 3;
    let size = statement_size(source, body);
    let m = n + size;
    let atom = atom_at(source, guard, 0);
    write_expression(
        source,
        guard,
        Use::Wanted,
        WritePosition {
            level: 0,
            base: at.base,
            follows: true,
        },
        out,
    );
    put_arm_head(atom, at.base + k, size, &mut out[6 * k..]);
    write_statement(
        source,
        body,
        StatementPosition {
            base: at.base + n,
            ..at
        },
        true,
        &mut out[6 * n..],
    );
    put_arm_end(target, &mut out[6 * m..]);
}
