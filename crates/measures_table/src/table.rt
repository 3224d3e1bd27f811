// The words of the table of measures.
ghost use Rattle.std.specs.Prelude.{◌≡◌, ◌++◌, ◌+◌, ◌*◌, ◌≤◌, length, take, drop};
ghost use Rattle.measures_table.specs.Measures.{limited as limited_to, width, SlotAsks, SlotIs, row_words};

use super::{
    ARMS_LABELS, ARMS_LEVELS, ARMS_ROWS, COPIED, COPIES, DROPPED_LEVELS, DROPPED_ROWS,
    ExpressionMeasures, LEVELS, LIST_CASES, LIST_DEFAULT, LIST_LABELS, LIST_LEVELS, LIST_ROWS,
    ListMeasures, ROWS, STATEMENT_LABELS, STATEMENT_LEVELS, STATEMENT_ROWS, STORED_LEVELS,
    StatementMeasures, VALUE, WIDTH,
};

// A sum, cut off above every limit.
pub fn limited(sum: usize) -> usize
    ensures { result ≡ limited_to sum }
{
    sum.min(65536)
}

// A measure of the row that a link leads to; an absent link measures nothing.
pub fn measure_at(table: &[usize], link: usize, measure: usize) -> usize
    requires { SlotAsks table.now link measure }
    ensures { SlotIs table.now link measure result }
{
    if link == 0 {
        return 0;
    }
    table[WIDTH * link + measure]
}

// Puts the measures of a row into the table.
pub fn set_measures(
    table: &mut [usize],
    row: usize,
    expression: ExpressionMeasures,
    statement: StatementMeasures,
    list: ListMeasures,
    arms: StatementMeasures,
)
    requires { width * row + width ≤ length table.old }
    ensures { table.new ≡ take (width * row) table.old ++ row_words expression statement list arms ++ drop (width * row + width) table.old }
{
    let at = WIDTH * row;
    table[at + ROWS] = expression.rows;
    table[at + LEVELS] = expression.levels;
    table[at + VALUE] = expression.value;
    table[at + STATEMENT_ROWS] = statement.rows;
    table[at + STATEMENT_LEVELS] = statement.levels;
    table[at + STATEMENT_LABELS] = statement.labels;
    table[at + LIST_ROWS] = list.rows;
    table[at + LIST_LEVELS] = list.levels;
    table[at + LIST_LABELS] = list.labels;
    table[at + LIST_CASES] = list.cases;
    table[at + LIST_DEFAULT] = list.default;
    table[at + COPIED] = expression.copied;
    table[at + DROPPED_ROWS] = expression.dropped_rows;
    table[at + DROPPED_LEVELS] = expression.dropped_levels;
    table[at + STORED_LEVELS] = expression.stored_levels;
    table[at + ARMS_ROWS] = arms.rows;
    table[at + ARMS_LEVELS] = arms.levels;
    table[at + ARMS_LABELS] = arms.labels;
    table[at + COPIES] = expression.copies;
}
