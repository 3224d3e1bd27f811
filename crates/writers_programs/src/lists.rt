// What a list takes, by the table of measures.
ghost use Rattle.std.specs.Prelude.{◌≡◌, ◌≤◌, ◌<◌};
ghost use Rattle.words.specs.Table.{row_count};
ghost use Rattle.language.specs.Decode.{list_at};
ghost use Rattle.translation.specs.Translate.{items_labels, items_levels};
ghost use Rattle.measures_table.specs.Parts.{called_in};
ghost use Rattle.measures_table.specs.Measures.{Measured};

use measures_table::table::measure_at;
use measures_table::{LIST_LABELS, LIST_LEVELS};
use writers_steps::WriteSource;

// The labels of the list at a link.
pub fn list_labels(source: &WriteSource<'_>, list: usize) -> usize
    requires { Measured source.now.rows.now source.now.table.now × (list < row_count source.now.rows.now) × (items_labels (list_at source.now.rows.now list) ≤ 65535) }
    ensures { result ≡ items_labels (list_at source.now.rows.now list) }
{
    measure_at(source.table, list, LIST_LABELS)
}

// The levels of the list at a link.
pub fn list_levels(source: &WriteSource<'_>, list: usize) -> usize
    requires { Measured source.now.rows.now source.now.table.now × (list < row_count source.now.rows.now) × (items_levels (called_in source.now.rows.now) (list_at source.now.rows.now list) ≤ 65535) }
    ensures { result ≡ items_levels (called_in source.now.rows.now) (list_at source.now.rows.now list) }
{
    measure_at(source.table, list, LIST_LEVELS)
}
