// The lines of lists, printed behind those that are done: lists and items call each other, as deep as the program. Each function
// answers how many lines are done then.
ghost use Rattle.std.specs.Prelude.{◌+◌, ◌<◌};
ghost use Rattle.words.specs.Table.{row_count};
ghost use Rattle.language.specs.Decode.{list_at};
ghost use Rattle.page.specs.Lines.{items_lines};
ghost use Rattle.page_line.specs.Contents.{LineInside};
ghost use Rattle.page_line.specs.Printed.{Printed};
ghost use Rattle.page_printer.specs.Outlines.{enclosed, outlined, outline_at};
ghost use Rattle.page_printer.specs.Ready.{Ready};

use super::Outline;
use super::functions::{print_arguments, print_definition};
use super::items::{block_list, outline_at};
use page::Sizes;
use page_line::LineAt;
use page_line::whole::print_line;
use words::table::number_at;

// The list from a first item on; 0 is the empty list.
#[cycle(print_items)]
pub fn print_list(
    sizes: Sizes,
    rows: &[i32],
    first: usize,
    level: usize,
    done: usize,
    page: &mut [u8],
) -> usize
    requires { Ready sizes rows.now (items_lines level (list_at rows.now first)) level done page.old × (first < row_count rows.now) }
    ensures { Printed sizes (items_lines level (list_at rows.now first)) page.old done result page.new }
{
    let mut row = first;
    let mut lines = done;
    while row != 0 {
        lines = print_item(sizes, &*rows, row, level, lines, page);
        row = number_at(rows, row, 5);
    }
    lines
}

// An item.
#[cycle(print_items)]
fn print_item(
    sizes: Sizes,
    rows: &[i32],
    row: usize,
    level: usize,
    done: usize,
    page: &mut [u8],
) -> usize
    requires { Ready sizes rows.now (outlined rows.now level (outline_at rows.now row)) level done page.old × (row < row_count rows.now) }
    ensures { Printed sizes (outlined rows.now level (outline_at rows.now row)) page.old done result page.new }
{
    let outline = outline_at(rows, row);
    match outline {
        Outline::Single(line) => print_line(sizes, rows, line, level, done, page),
        Outline::Enclosed(line, block) => {
            let inside = print_enclosed(sizes, &*rows, line, block, level, done, page);
            print_line(sizes, rows, LineAt::Closes, level, inside, page)
        }
        Outline::Split(line, first, second) => {
            let turn = print_enclosed(sizes, &*rows, line, first, level, done, page);
            let inside = print_enclosed(sizes, &*rows, LineAt::Turns, second, level, turn, page);
            print_line(sizes, rows, LineAt::Closes, level, inside, page)
        }
        Outline::Called(line, first, link) => {
            let opened = print_line(sizes, rows, line, level, done, page);
            print_arguments(sizes, rows, first, link, level, opened, page)
        }
        Outline::Defined(number, parameters, body) => {
            let opened = print_definition(sizes, rows, number, parameters, level, done, page);
            let list = block_list(rows, body);
            let inside = print_list(sizes, &*rows, list, level + 1, opened, page);
            print_line(sizes, rows, LineAt::Closes, level, inside, page)
        }
        Outline::Nothing => done,
    }
}

// A line, and the list of a block a level deeper.
#[cycle(print_items)]
fn print_enclosed(
    sizes: Sizes,
    rows: &[i32],
    line: LineAt,
    block: usize,
    level: usize,
    done: usize,
    page: &mut [u8],
) -> usize
    requires { Ready sizes rows.now (enclosed rows.now level line block) level done page.old × LineInside (row_count rows.now) line × (block < row_count rows.now) }
    ensures { Printed sizes (enclosed rows.now level line block) page.old done result page.new }
{
    let opened = print_line(sizes, rows, line, level, done, page);
    let list = block_list(rows, block);
    print_list(sizes, &*rows, list, level + 1, opened, page)
}
