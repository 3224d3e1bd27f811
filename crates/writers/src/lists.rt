// What statements, items, lists and arms take, by the table of measures: rows, labels, cases.
ghost use Rattle.std.specs.Prelude.{◌≡◌, ◌≤◌, ◌<◌};
ghost use Rattle.words.specs.Table.{row_count};
ghost use Rattle.language.specs.Trees.{default};
ghost use Rattle.language.specs.Decode.{statement_at, items_at, list_at, arm_list_at};
ghost use Rattle.translation.specs.Translate.{labels, arms_labels, label_of};
ghost use Rattle.translation.specs.TranslateSize.{statement_size, arms_size, items_size, cases};
ghost use Rattle.measures_table.specs.Parts.{called_in};
ghost use Rattle.measures_table.specs.Measures.{Measured};
ghost use Rattle.writers.specs.Items.{item_size, item_labels};
ghost use Rattle.writers.specs.Asks.{body_size, ListInside};

use language_shapes::Item;
use language_shapes::rows::item_at;
use measures_table::table::measure_at;
use measures_table::{
    ARMS_LABELS, ARMS_ROWS, LIST_CASES, LIST_DEFAULT, LIST_ROWS, STATEMENT_LABELS, STATEMENT_ROWS,
    WIDTH,
};
use writers_steps::WriteSource;

// The kernel rows of the statement at a row.
pub fn statement_size(source: &WriteSource<'_>, row: usize) -> usize
    requires { Measured source.now.rows.now source.now.table.now × (row < row_count source.now.rows.now) × (statement_size (called_in source.now.rows.now) (statement_at source.now.rows.now row) ≤ 40980) }
    ensures { result ≡ statement_size (called_in source.now.rows.now) (statement_at source.now.rows.now row) }
{
    source.table[WIDTH * row + STATEMENT_ROWS]
}

// The labels of the statement at a row.
pub fn statement_labels(source: &WriteSource<'_>, row: usize) -> usize
    requires { Measured source.now.rows.now source.now.table.now × (row < row_count source.now.rows.now) × (labels (statement_at source.now.rows.now row) ≤ 65535) }
    ensures { result ≡ labels (statement_at source.now.rows.now row) }
{
    source.table[WIDTH * row + STATEMENT_LABELS]
}

// The kernel rows of a branch that may be absent.
pub fn body_size(source: &WriteSource<'_>, row: usize) -> usize
    requires { Measured source.now.rows.now source.now.table.now × (row < row_count source.now.rows.now) × (body_size source.now.rows.now row ≤ 40980) }
    ensures { result ≡ body_size source.now.rows.now row }
{
    if row == 0 {
        return 0;
    }
    statement_size(source, row)
}

// The kernel rows of the list at a link.
pub fn list_size(source: &WriteSource<'_>, list: usize) -> usize
    requires { Measured source.now.rows.now source.now.table.now × (list < row_count source.now.rows.now) × (items_size (called_in source.now.rows.now) (list_at source.now.rows.now list) ≤ 40980) }
    ensures { result ≡ items_size (called_in source.now.rows.now) (list_at source.now.rows.now list) }
{
    measure_at(source.table, list, LIST_ROWS)
}

// The cases of the list at a link.
pub fn list_cases(source: &WriteSource<'_>, list: usize) -> usize
    requires { Measured source.now.rows.now source.now.table.now × (list < row_count source.now.rows.now) × (cases (list_at source.now.rows.now list) ≤ 40980) }
    ensures { result ≡ cases (list_at source.now.rows.now list) }
{
    measure_at(source.table, list, LIST_CASES)
}

// The kernel rows of the arms at a link.
pub fn arms_size(source: &WriteSource<'_>, arms: usize) -> usize
    requires { Measured source.now.rows.now source.now.table.now × (arms < row_count source.now.rows.now) × (arms_size (called_in source.now.rows.now) (arm_list_at source.now.rows.now arms) ≤ 40980) }
    ensures { result ≡ arms_size (called_in source.now.rows.now) (arm_list_at source.now.rows.now arms) }
{
    measure_at(source.table, arms, ARMS_ROWS)
}

// The labels of the arms at a link.
pub fn arms_labels(source: &WriteSource<'_>, arms: usize) -> usize
    requires { Measured source.now.rows.now source.now.table.now × (arms < row_count source.now.rows.now) × (arms_labels (arm_list_at source.now.rows.now arms) ≤ 65535) }
    ensures { result ≡ arms_labels (arm_list_at source.now.rows.now arms) }
{
    measure_at(source.table, arms, ARMS_LABELS)
}

// The label of the list's default, or `other`.
pub fn default_label(source: &WriteSource<'_>, list: usize, label: usize, other: usize) -> usize
    requires { Measured source.now.rows.now source.now.table.now × ListInside source.now.rows.now list label }
    ensures { result ≡ label_of default (list_at source.now.rows.now list) label other }
{
    let place = measure_at(source.table, list, LIST_DEFAULT);
    if place == 0 {
        return other;
    }
    label + place - 1
}

// The kernel rows of the item at a row.
pub fn item_size(source: &WriteSource<'_>, row: usize) -> usize
    requires { Measured source.now.rows.now source.now.table.now × (row < row_count source.now.rows.now) × (item_size (called_in source.now.rows.now) (items_at source.now.rows.now row) ≤ 40980) }
    ensures { result ≡ item_size (called_in source.now.rows.now) (items_at source.now.rows.now row) }
{
    let item = item_at(source.rows, row);
    match item {
        Item::Statement => statement_size(source, row),
        Item::Mark(_) => 1,
        Item::Definition(_, _, _) => 0,
    }
}

// The labels of the item at a row.
pub fn item_labels(source: &WriteSource<'_>, row: usize) -> usize
    requires { Measured source.now.rows.now source.now.table.now × (row < row_count source.now.rows.now) × (item_labels (items_at source.now.rows.now row) ≤ 65535) }
    ensures { result ≡ item_labels (items_at source.now.rows.now row) }
{
    let item = item_at(source.rows, row);
    match item {
        Item::Statement => statement_labels(source, row),
        Item::Mark(_) => 1,
        Item::Definition(_, _, _) => 0,
    }
}
