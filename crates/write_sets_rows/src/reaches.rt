// What an expression's own row writes, and the links at which more is written. The declared words begin at `store`; `known` functions have
// their sets in the table.
ghost use Rattle.std.specs.Prelude.{◌≡◌, ◌≤◌, ◌<◌, length};
ghost use Rattle.words.specs.Table.{row_count};
ghost use Rattle.language_shapes.specs.Source.{NamesFrom, Source, ExpressionAt};
ghost use Rattle.language_shapes.specs.declared.ExpressionShape.TheVariants.{Read, Operation, Choice};
ghost use Rattle.write_sets_rows.specs.Reaches.{UpdateAt, Reached, ReachedWith};

use super::Reach;
use super::table::function_set;
use language_shapes::rows::{expression_at, place_at};
use language_shapes::{ChoiceShape, ExpressionShape, OperationShape, PlaceShape};
use write_sets::WriteSet;

// A row that writes nothing.
const NO_LINKS: Reach = Reach {
    own: WriteSet { words: [0; 5] },
    first: 0,
    second: 0,
    third: 0,
    arguments: 0,
};

// An update of the place at a row, by the value at a link, which may be absent.
fn update_reach(store: usize, rows: &[i32], place: usize, value: usize) -> Reach
    requires { Source rows.now × NamesFrom store rows.now × (place < row_count rows.now) }
    ensures { UpdateAt store rows.now place value result }
{
    let shape = place_at(rows, place);
    match shape {
        PlaceShape::Variable(i) => Reach {
            own: WriteSet::single(store, i),
            first: value,
            ..NO_LINKS
        },
        PlaceShape::Element(_, index) => Reach {
            first: value,
            second: index,
            ..NO_LINKS
        },
    }
}

fn read_reach(store: usize, rows: &[i32], row: usize, place: PlaceShape) -> Reach
    requires { ExpressionAt rows.now row (Read place) }
    ensures { Reached store rows.now row result }
{
    match place {
        PlaceShape::Variable(_) => NO_LINKS,
        PlaceShape::Element(_, index) => Reach {
            first: index,
            ..NO_LINKS
        },
    }
}

fn operation_reach(store: usize, rows: &[i32], row: usize, operation: OperationShape) -> Reach
    requires { Source rows.now × NamesFrom store rows.now × ExpressionAt rows.now row (Operation operation) }
    ensures { Reached store rows.now row result }
{
    match operation {
        OperationShape::Minus(a) => Reach {
            first: a,
            ..NO_LINKS
        },
        OperationShape::Not(a) => Reach {
            first: a,
            ..NO_LINKS
        },
        OperationShape::Binary(_, a, b) => Reach {
            first: a,
            second: b,
            ..NO_LINKS
        },
        OperationShape::Comma(a, b) => Reach {
            first: a,
            second: b,
            ..NO_LINKS
        },
        OperationShape::Assign(place, e) => update_reach(store, rows, place, e),
        OperationShape::Compound(_, place, e) => update_reach(store, rows, place, e),
        OperationShape::Prefix(_, place) => update_reach(store, rows, place, 0),
        OperationShape::Postfix(_, place) => update_reach(store, rows, place, 0),
    }
}

fn choice_reach(store: usize, rows: &[i32], row: usize, choice: ChoiceShape) -> Reach
    requires { ExpressionAt rows.now row (Choice choice) }
    ensures { Reached store rows.now row result }
{
    match choice {
        ChoiceShape::And(a, b) => Reach {
            first: a,
            second: b,
            ..NO_LINKS
        },
        ChoiceShape::Or(a, b) => Reach {
            first: a,
            second: b,
            ..NO_LINKS
        },
        ChoiceShape::Conditional(test, a, b) => Reach {
            first: test,
            second: a,
            third: b,
            ..NO_LINKS
        },
    }
}

// The expression at a row; a call writes what its function can, and what its arguments can.
pub fn reach_at(store: usize, rows: &[i32], sets: &[WriteSet], known: usize, row: usize) -> Reach
    requires { Source rows.now × NamesFrom store rows.now × (row < row_count rows.now) × (known ≤ length sets.now) }
    ensures { ReachedWith store rows.now sets.now known row result }
{
    let shape = expression_at(rows, row);
    match shape {
        ExpressionShape::Number(_) => NO_LINKS,
        ExpressionShape::Read(place) => read_reach(store, rows, row, place),
        ExpressionShape::Operation(operation) => operation_reach(store, rows, row, operation),
        ExpressionShape::Choice(choice) => choice_reach(store, rows, row, choice),
        ExpressionShape::Call(function, first) => {
            Reach {
                own: function_set(sets, known, function),
                arguments: first,
                ..NO_LINKS
            }
        }
    }
}
