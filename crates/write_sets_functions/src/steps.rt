// What a statement's own row writes, and the links at which more is written; and the links of an item and of an arm.
ghost use Rattle.std.specs.Prelude.{◌≡◌, ◌<◌};
ghost use Rattle.words.specs.Table.{row_count};
ghost use Rattle.language_shapes.specs.Source.{NamesFrom, Source, StatementAt};
ghost use Rattle.language_shapes.specs.declared.StatementShape.TheVariants.{Declare};
ghost use Rattle.write_sets_functions.specs.Steps.{Stepped, StatementItem, ArmLinksAt};

use super::{ArmLinks, Step};
use language_shapes::rows::{arm_at, item_at, statement_at};
use language_shapes::{Item, StatementShape};
use words::table::number_at;
use write_sets::WriteSet;

// A row that writes nothing.
const NO_LINKS: Step = Step {
    own: WriteSet { words: [0; 5] },
    first: 0,
    second: 0,
    third: 0,
    body: 0,
    other: 0,
    list: 0,
    arms: 0,
};

fn declare_step(store: usize, rows: &[i32], row: usize, word: usize, e: usize) -> Step
    requires { NamesFrom store rows.now × StatementAt rows.now row (Declare word e) }
    ensures { Stepped store rows.now row result }
{
    Step {
        own: WriteSet::single(store, word),
        first: e,
        ..NO_LINKS
    }
}

pub fn step_at(store: usize, rows: &[i32], row: usize) -> Step
    requires { Source rows.now × NamesFrom store rows.now × (row < row_count rows.now) }
    ensures { Stepped store rows.now row result }
{
    let shape = statement_at(rows, row);
    match shape {
        StatementShape::Empty => NO_LINKS,
        StatementShape::Express(e) => Step {
            first: e,
            ..NO_LINKS
        },
        StatementShape::Block(list) => Step { list, ..NO_LINKS },
        StatementShape::If(e, yes, no) => Step {
            first: e,
            body: yes,
            other: no,
            ..NO_LINKS
        },
        StatementShape::While(e, body) => Step {
            first: e,
            body,
            ..NO_LINKS
        },
        StatementShape::Do(body, e) => Step {
            first: e,
            body,
            ..NO_LINKS
        },
        StatementShape::For(first, test, step, body) => {
            Step {
                first,
                second: test,
                third: step,
                body,
                ..NO_LINKS
            }
        }
        StatementShape::Switch(e, list) => Step {
            first: e,
            list,
            ..NO_LINKS
        },
        StatementShape::Break => NO_LINKS,
        StatementShape::Continue => NO_LINKS,
        StatementShape::Goto(_) => NO_LINKS,
        StatementShape::GuardedIf(arms) => Step { arms, ..NO_LINKS },
        StatementShape::GuardedDo(arms) => Step { arms, ..NO_LINKS },
        StatementShape::Abort => NO_LINKS,
        StatementShape::Declare(word, e) => declare_step(store, rows, row, word, e),
        StatementShape::Return(value) => Step {
            first: value,
            ..NO_LINKS
        },
    }
}

// The statement of an item; 0 for a mark and for a definition, which writes nothing where it stands.
pub fn item_statement(rows: &[i32], row: usize) -> usize
    requires { Source rows.now × (row < row_count rows.now) × (0 < row) }
    ensures { StatementItem rows.now row result }
{
    let item = item_at(rows, row);
    match item {
        Item::Statement => row,
        Item::Mark(_) => 0,
        Item::Definition(_, _, _) => 0,
    }
}

// The links of the arm at a row; a row that is no arm ends the arms.
pub fn arm_links(rows: &[i32], row: usize) -> ArmLinks
    requires { Source rows.now × (row < row_count rows.now) }
    ensures { ArmLinksAt rows.now row result }
{
    let next = number_at(rows, row, 5);
    let shape = arm_at(rows, row);
    match shape {
        Some((guard, body)) => ArmLinks { guard, body, next },
        None => ArmLinks {
            guard: 0,
            body: 0,
            next: 0,
        },
    }
}
