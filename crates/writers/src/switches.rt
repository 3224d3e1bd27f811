// The writers of switches and of their tests.
ghost use Rattle.std.specs.Prelude.{◌≡◌, true, length, ◌+◌, ◌*◌, ◌<◌};
ghost use Rattle.language_emission.specs.Emission.{emit_items};
ghost use Rattle.language.specs.Decode.{expression_at, items_at, list_at};
ghost use Rattle.language.specs.Trees.{switch};
ghost use Rattle.writers_steps.specs.Asks.{Writes};
ghost use Rattle.writers_rows.specs.Room.{Room};
ghost use Rattle.translation.specs.Translate.{statement_code, case_tests};
ghost use Rattle.measures_table.specs.Parts.{called_in};
ghost use Rattle.words.specs.Over.{over};
ghost use Rattle.writers.specs.Asks.{SwitchAsks, CaseAsks, CasesAsk};
ghost use Rattle.writers.specs.Code.{exits_of};
ghost use Rattle.writers.specs.Items.{item_cases, case_test, item_test};
ghost use Rattle.words.specs.Table.{row_count};
ghost use Rattle.language_shapes.specs.Source.{Source};
ghost use Rattle.measures_table.specs.Measures.{Measured};
ghost use Rattle.writers_rows.specs.Atoms.{atom_tree, AtomFits};

use super::blocks::write_list;
use super::lists::{default_label, item_labels, list_cases, list_size};
use super::{Exits, StatementPosition};
use language_shapes::rows::item_at;
use language_shapes::{Item, MarkShape};
use measures_expressions::holders::taken_at;
use translation::Use;
use words::Operator;
use words::table::number_at;
use writers_expressions::expressions::write_expression;
use writers_rows::KernelAtom;
use writers_rows::assignments::put_binary;
use writers_rows::control::{put_goto, put_jump, put_label};
use writers_steps::atoms::{atom_at, operand_size};
use writers_steps::{WritePosition, WriteSource};

// The rows of the test that the item at a row brings.
fn case_size(rows: &[i32], row: usize) -> usize
    requires { Source rows.now × (row < row_count rows.now) }
    ensures { result ≡ 11 * item_cases (items_at rows.now row) }
{
    let item = item_at(rows, row);
    match item {
        Item::Statement => 0,
        Item::Mark(mark) => match mark {
            MarkShape::Case(_) => 11,
            MarkShape::Default => 0,
            MarkShape::Label(_) => 0,
        },
        Item::Definition(_, _, _) => 0,
    }
}

// The test of a case: the comparison into a variable, and the jump to the label.
fn put_case(
    x: KernelAtom,
    v: i32,
    store: usize,
    level: usize,
    target: usize,
    base: usize,
    out: &mut [i32],
)
    requires { Room 11 base (length out.old) × AtomFits x × (store + level < 65536) × (target < 65536) }
    ensures { out.new ≡ over (emit_items true (case_test store (atom_tree x) level v target) base) out.old }
{
    let number = store + level;
    put_binary(
        number,
        Operator::Equal,
        x,
        KernelAtom::Constant(v),
        base,
        true,
        out,
    );
    put_jump(number, target, base + 6, &mut out[36..]);
}

// The test that the item at a row brings, if it is a case.
fn put_item_test(
    source: &WriteSource<'_>,
    row: usize,
    x: KernelAtom,
    level: usize,
    target: usize,
    base: usize,
    out: &mut [i32],
)
    requires { CaseAsks source.now.rows.now row x source.now.store level target base (length out.old) }
    ensures { out.new ≡ over (emit_items true (item_test source.now.store (atom_tree x) level (items_at source.now.rows.now row) target) base) out.old }
{
    let item = item_at(source.rows, row);
    match item {
        Item::Statement => {}
        Item::Mark(mark) => match mark {
            MarkShape::Case(v) => put_case(x, v, source.store, level, target, base, out),
            MarkShape::Default => {}
            MarkShape::Label(_) => {}
        },
        Item::Definition(_, _, _) => {}
    }
}

// The tests of a switch, for the list at a link whose labels begin at `label`. More follows.
pub fn write_cases(
    source: &WriteSource<'_>,
    list: usize,
    x: KernelAtom,
    level: usize,
    label: usize,
    base: usize,
    out: &mut [i32],
)
    requires { Measured source.now.rows.now source.now.table.now × CasesAsk source.now.rows.now list x source.now.store level label base (length out.old) }
    ensures { out.new ≡ over (emit_items true (case_tests source.now.store (atom_tree x) level (list_at source.now.rows.now list) label) base) out.old }
{
    let mut item = list;
    let mut target = label;
    let mut n: usize = 0;
    while item != 0 {
        put_item_test(source, item, x, level, target, base + n, &mut out[6 * n..]);
        n += case_size(source.rows, item);
        target += item_labels(source, item);
        item = number_at(source.rows, item, 5);
    }
}

// A switch: its selector, the tests, the jump to the default, the items, and the label behind it.
#[cycle(write_statements)]
pub(crate) fn write_switch(
    source: &WriteSource<'_>,
    selector: usize,
    list: usize,
    at: StatementPosition,
    follows: bool,
    out: &mut [i32],
)
    requires { Writes source.now × SwitchAsks source.now.rows.now selector list at.exits at.label at.base (length out.old) }
    ensures { out.new ≡ over (emit_items follows (statement_code (called_in source.now.rows.now) source.now.store (switch (expression_at source.now.rows.now selector) (list_at source.now.rows.now list)) (exits_of at.exits) at.label) at.base) out.old }
{
    let k = operand_size(source, selector, Use::Wanted);
    let n = k + 11 * list_cases(source, list);
    let i = n + 1;
    let m = i + list_size(source, list);
    let atom = atom_at(source, selector, 0);
    let level = taken_at(source.rows, source.table, selector);
    let inner = Exits {
        breaking: at.label,
        continuing: at.exits.continuing,
    };
    write_expression(
        source,
        selector,
        Use::Wanted,
        WritePosition {
            level: 0,
            base: at.base,
            follows: true,
        },
        out,
    );
    write_cases(
        source,
        list,
        atom,
        level,
        at.label + 1,
        at.base + k,
        &mut out[6 * k..],
    );
    put_goto(
        default_label(source, list, at.label + 1, at.label),
        at.base + n,
        true,
        &mut out[6 * n..],
    );
    write_list(
        source,
        list,
        StatementPosition {
            exits: inner,
            label: at.label + 1,
            base: at.base + i,
        },
        true,
        &mut out[6 * i..],
    );
    put_label(at.label, at.base + m, follows, &mut out[6 * m..]);
}
