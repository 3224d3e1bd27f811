// How many lines a list has: lists and items call each other, as deep as the program.
ghost use Rattle.std.specs.Prelude.{◌≡◌, length};
ghost use Rattle.language.specs.Decode.{list_at};
ghost use Rattle.page.specs.Lines.{items_lines};
ghost use Rattle.page_printer.specs.Outlines.{outlined, outline_at};
ghost use Rattle.page_printer.specs.Ready.{Sized};

use super::Outline;
use super::functions::{count_arguments, count_parameters};
use super::items::{block_list, outline_at};
use words::table::number_at;

// The lines of the list from a first item on; 0 is the empty list.
#[cycle(count_items)]
pub fn count_list(rows: &[i32], first: usize) -> usize
    requires { Sized rows.now (items_lines 0 (list_at rows.now first)) first }
    ensures { result ≡ length (items_lines 0 (list_at rows.now first)) }
{
    let mut row = first;
    let mut lines: usize = 0;
    while row != 0 {
        lines += count_item(&*rows, row);
        row = number_at(rows, row, 5);
    }
    lines
}

// The lines of an item.
#[cycle(count_items)]
fn count_item(rows: &[i32], row: usize) -> usize
    requires { Sized rows.now (outlined rows.now 0 (outline_at rows.now row)) row }
    ensures { result ≡ length (outlined rows.now 0 (outline_at rows.now row)) }
{
    let outline = outline_at(rows, row);
    match outline {
        Outline::Single(_) => 1,
        Outline::Enclosed(_, block) => {
            let list = block_list(rows, block);
            count_list(&*rows, list) + 2
        }
        Outline::Split(_, first, second) => {
            let one = block_list(rows, first);
            let other = block_list(rows, second);
            let lines = count_list(&*rows, one);
            lines + count_list(&*rows, other) + 3
        }
        Outline::Called(_, _, link) => count_arguments(rows, link) + 2,
        Outline::Defined(_, parameters, body) => {
            let opened = count_parameters(rows, parameters) + 1;
            let list = block_list(rows, body);
            opened + count_list(&*rows, list) + 1
        }
        Outline::Nothing => 0,
    }
}
