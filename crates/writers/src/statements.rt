// The writers of statements, ifs and the bodies of ifs. All that write statements call each other, in one cycle: those of loops, switches,
// guarded forms and blocks stand in files of their own.
ghost use Rattle.std.specs.Prelude.{◌≡◌, length};
ghost use Rattle.language_emission.specs.Emission.{emit_items, emit_statement};
ghost use Rattle.language.specs.Decode.{expression_at, if_of, statement_at};
ghost use Rattle.language.specs.Trees.{block};
ghost use Rattle.writers_steps.specs.Asks.{Writes};
ghost use Rattle.translation.specs.declared.Use.TheVariants.{Dropped as dropped};
ghost use Rattle.translation.specs.Translate.{expression_code, or_empty, statement_code};
ghost use Rattle.measures_table.specs.Parts.{called_in};
ghost use Rattle.words.specs.Over.{over};
ghost use Rattle.writers.specs.Asks.{BodyAsks, IfAsks, StatementAsks, ExpressAsks};
ghost use Rattle.writers.specs.Code.{exits_of, body_code};

use super::blocks::write_block;
use super::declarations::write_declare;
use super::guarded::{write_choice, write_rounds};
use super::lists::{body_size, statement_labels, statement_size};
use super::loops::write_loop;
use super::returns::write_return;
use super::switches::write_switch;
use super::{Loop, StatementPosition};
use language_shapes::StatementShape;
use language_shapes::rows::statement_at;
use translation::Use;
use writers_expressions::expressions::write_expression;
use writers_rows::control::{put_block, put_empty, put_goto, put_if};
use writers_rows::rows::behind;
use writers_steps::atoms::{atom_at, operand_size};
use writers_steps::{WritePosition, WriteSource};

// A loop without parts.
const NO_PARTS: Loop = Loop {
    first: 0,
    before: 0,
    body: 0,
    action: 0,
    after: 0,
};

// An expression statement: one that leaves nothing to do leaves an empty statement.
fn write_express(
    source: &WriteSource<'_>,
    expression: usize,
    base: usize,
    follows: bool,
    out: &mut [i32],
)
    requires { Writes source.now × ExpressAsks source.now.rows.now expression base (length out.old) }
    ensures { out.new ≡ over (emit_items follows (or_empty source.now.store (expression_code (called_in source.now.rows.now) source.now.store (expression_at source.now.rows.now expression) dropped 0)) base) out.old }
{
    let n = operand_size(source, expression, Use::Dropped);
    if n == 0 {
        put_empty(base, follows, out);
        return;
    }
    write_expression(
        source,
        expression,
        Use::Dropped,
        WritePosition {
            level: 0,
            base,
            follows,
        },
        out,
    );
}

// The code of the statement at a row. Its labels begin at `label`.
#[cycle(write_statements)]
pub fn write_statement(
    source: &WriteSource<'_>,
    row: usize,
    at: StatementPosition,
    follows: bool,
    out: &mut [i32],
)
    requires { Writes source.now × StatementAsks source.now.rows.now row at.exits at.label at.base (length out.old) }
    ensures { out.new ≡ over (emit_items follows (statement_code (called_in source.now.rows.now) source.now.store (statement_at source.now.rows.now row) (exits_of at.exits) at.label) at.base) out.old }
{
    let line = statement_at(source.rows, row);
    match line {
        StatementShape::Empty => put_empty(at.base, follows, out),
        StatementShape::Express(e) => write_express(source, e, at.base, follows, out),
        StatementShape::Block(list) => write_block(source, list, at, follows, out),
        StatementShape::If(e, yes, no) => write_if(source, e, yes, no, at, follows, out),
        StatementShape::While(e, body) => write_loop(
            source,
            Loop {
                before: e,
                body,
                ..NO_PARTS
            },
            at.label,
            at.base,
            follows,
            out,
        ),
        StatementShape::Do(body, e) => write_loop(
            source,
            Loop {
                body,
                after: e,
                ..NO_PARTS
            },
            at.label,
            at.base,
            follows,
            out,
        ),
        StatementShape::For(first, test, action, body) => write_loop(
            source,
            Loop {
                first,
                before: test,
                body,
                action,
                ..NO_PARTS
            },
            at.label,
            at.base,
            follows,
            out,
        ),
        StatementShape::Switch(e, list) => write_switch(source, e, list, at, follows, out),
        StatementShape::Break => put_goto(at.exits.breaking, at.base, follows, out),
        StatementShape::Continue => put_goto(at.exits.continuing, at.base, follows, out),
        StatementShape::Goto(_) => put_empty(at.base, follows, out),
        StatementShape::GuardedIf(arms) => write_choice(source, arms, at, follows, out),
        StatementShape::GuardedDo(arms) => write_rounds(source, arms, at, follows, out),
        StatementShape::Abort => put_empty(at.base, follows, out),
        StatementShape::Declare(number, e) => write_declare(
            source, number, e, at.base, follows, out,
        ),
        StatementShape::Return(value) => { write_return(source, value, at.base, follows, out) }
    }
}

// An if: its test, and a block for each branch.
#[cycle(write_statements)]
fn write_if(
    source: &WriteSource<'_>,
    test: usize,
    yes: usize,
    no: usize,
    at: StatementPosition,
    follows: bool,
    out: &mut [i32],
)
    requires { Writes source.now × IfAsks source.now.rows.now test yes no at.exits at.label at.base (length out.old) }
    ensures { out.new ≡ over (emit_items follows (statement_code (called_in source.now.rows.now) source.now.store (if_of no (expression_at source.now.rows.now test) (statement_at source.now.rows.now yes) (statement_at source.now.rows.now no)) (exits_of at.exits) at.label) at.base) out.old }
{
    let k = operand_size(source, test, Use::Wanted);
    let n = k + 2;
    let m = n + 1 + statement_size(source, yes);
    let end = m + 1 + body_size(source, no);
    let atom = atom_at(source, test, 0);
    let other = at.label + statement_labels(source, yes);
    write_expression(
        source,
        test,
        Use::Wanted,
        WritePosition {
            level: 0,
            base: at.base,
            follows: true,
        },
        out,
    );
    put_if(
        atom,
        at.base + k,
        at.base + m,
        behind(follows, at.base + end),
        &mut out[6 * k..],
    );
    write_body(
        source,
        yes,
        StatementPosition {
            base: at.base + n,
            ..at
        },
        &mut out[6 * n..],
    );
    write_body(
        source,
        no,
        StatementPosition {
            label: other,
            base: at.base + m,
            ..at
        },
        &mut out[6 * m..],
    );
}

// A block of the statement at a link, or an empty one.
#[cycle(write_statements)]
fn write_body(source: &WriteSource<'_>, row: usize, at: StatementPosition, out: &mut [i32])
    requires { Writes source.now × BodyAsks source.now.rows.now row at.exits at.label at.base (length out.old) }
    ensures { out.new ≡ over (emit_statement (block (body_code source.now.store source.now.rows.now row (exits_of at.exits) at.label)) at.base 0) out.old }
{
    if row == 0 {
        put_block(0, 0, out);
        return;
    }
    put_block(at.base + 1, 0, out);
    write_statement(
        source,
        row,
        StatementPosition {
            base: at.base + 1,
            ..at
        },
        false,
        &mut out[6..],
    );
}
