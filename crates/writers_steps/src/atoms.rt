// Kernel atoms and places, from the source rows.
ghost use Rattle.std.specs.Prelude.{◌≡◌, ◌+◌, ◌≤◌, ◌<◌};
ghost use Rattle.words.specs.Table.{row_count};
ghost use Rattle.language.specs.Decode.{place_of, expression_at, part_at};
ghost use Rattle.translation.specs.Translate.{place_taken};
ghost use Rattle.translation.specs.TranslateSize.{operand_size};
ghost use Rattle.measures_table.specs.Parts.{called_in, first_copied, UseFits};
ghost use Rattle.measures_table.specs.Measures.{Measured};
ghost use Rattle.writers_steps.specs.Asks.{Writes, AtomAt, TargetIs, HeldAt, PlaceInside, HeldPlace, PlaceAt};

use super::WriteSource;
use language_shapes::PlaceShape;
use language_shapes::rows::place_at;
use measures_expressions::holders::{holder_at, taken_at};
use measures_table::table::measure_at;
use measures_table::uses::rows_for;
use measures_table::{COPIED, Holder, WIDTH};
use translation::Use;
use writers_rows::{KernelAtom, KernelPlace};

// The atom of the expression at a row, worked out at a level.
pub fn atom_at(source: &WriteSource<'_>, row: usize, level: usize) -> KernelAtom
    requires { Writes source.now × (row < row_count source.now.rows.now) × (level ≤ 4096) }
    ensures { AtomAt source.now.store source.now.rows.now row level result }
{
    let holder = holder_at(source.rows, source.table, row);
    match holder {
        Holder::Number(value) => KernelAtom::Constant(value),
        Holder::Variable(number) => KernelAtom::Variable(number),
        Holder::Temporary => KernelAtom::Variable(source.store + level),
    }
}

// The word where an element's value or an operation's result goes: the temporary of its level, or the variable that stores it.
pub fn target_word(store: usize, level: usize, usage: Use) -> usize
    requires { (store + level < 65536) × UseFits usage }
    ensures { TargetIs store usage level result }
{
    match usage {
        Use::Dropped => store + level,
        Use::Wanted => store + level,
        Use::Stored(number) => number,
    }
}

// 1 where the expression at a row copies the value of its first operand, else 0.
pub fn operand_copied(source: &WriteSource<'_>, row: usize) -> usize
    requires { Measured source.now.rows.now source.now.table.now × (row < row_count source.now.rows.now) }
    ensures { result ≡ first_copied (called_in source.now.rows.now) (expression_at source.now.rows.now row) }
{
    source.table[WIDTH * row + COPIED]
}

// The atom of a value that waits for its use: where it was copied, the temporary of its level.
pub fn held_atom(source: &WriteSource<'_>, row: usize, copied: usize, level: usize) -> KernelAtom
    requires { Writes source.now × (row < row_count source.now.rows.now) × (level ≤ 4096) }
    ensures { HeldAt source.now.store source.now.rows.now row copied level result }
{
    if copied == 1 {
        return KernelAtom::Variable(source.store + level);
    }
    atom_at(source, row, level)
}

// A place, whose index is held at a level.
pub fn held_place(source: &WriteSource<'_>, place: PlaceShape, level: usize) -> KernelPlace
    requires { Writes source.now × PlaceInside source.now.rows.now place × (level ≤ 4096) }
    ensures { HeldPlace source.now.store source.now.rows.now place level result }
{
    match place {
        PlaceShape::Variable(number) => KernelPlace::Variable(number),
        PlaceShape::Element(array, index) => KernelPlace::Element(
            array,
            atom_at(source, index, level),
        ),
    }
}

// The place at a row, its index held at a level.
pub fn kernel_place(source: &WriteSource<'_>, row: usize, level: usize) -> KernelPlace
    requires { Writes source.now × (row < row_count source.now.rows.now) × (level ≤ 4096) }
    ensures { PlaceAt source.now.store source.now.rows.now row level result }
{
    let place = place_at(source.rows, row);
    held_place(source, place, level)
}

// How many temporaries the index of the place at a row takes.
pub fn place_taken(source: &WriteSource<'_>, row: usize) -> usize
    requires { Measured source.now.rows.now source.now.table.now × (row < row_count source.now.rows.now) }
    ensures { result ≡ place_taken (called_in source.now.rows.now) (place_of (expression_at source.now.rows.now row)) }
{
    let place = place_at(source.rows, row);
    match place {
        PlaceShape::Variable(_) => 0,
        PlaceShape::Element(_, index) => taken_at(source.rows, source.table, index),
    }
}

// The kernel rows of the expression at a link, where its value has this use.
pub fn operand_size(source: &WriteSource<'_>, row: usize, usage: Use) -> usize
    requires { Measured source.now.rows.now source.now.table.now × (row < row_count source.now.rows.now) × (operand_size (called_in source.now.rows.now) (part_at source.now.rows.now row) usage ≤ 40980) }
    ensures { result ≡ operand_size (called_in source.now.rows.now) (part_at source.now.rows.now row) usage }
{
    measure_at(source.table, row, rows_for(usage))
}
