// The pass that writes the rows of a page, from its last line to its first.
ghost use Rattle.std.specs.Prelude.{◌≡◌};
ghost use Rattle.words.specs.Over.{over};
ghost use Rattle.page_blocks.specs.Scans.{lines_in};
ghost use Rattle.page_rows.specs.Rows.{page_table};
ghost use Rattle.page_reader.specs.Stacks.{Counted};

use super::waiting::{left_before, waiting_row};
use page::Sizes;
use page_frame::statement_in;
use page_rows::lines::{put_block_row, put_line};
use page_scan::rows::{line_count, rows_of};
use page_words::Names;

// Writes the rows of a page, of which `total` were counted, at the start of the table.
pub fn write_rows(names: Names, sizes: Sizes, page: &[u8], total: usize, rows: &mut [i32])
    requires { Counted names sizes page.now total rows.old }
    ensures { rows.new ≡ over (page_table sizes (lines_in names page.now)) rows.old }
{
    let mut waiting = [0u16; 81958];
    let mut depth: usize = 0;
    let mut follows = false;
    let mut base = total;
    let mut k = line_count(page.len());
    while k > 0 {
        k -= 1;
        let start = 81 * k;
        let end = start + 81;
        let read = statement_in(names, &page[start..end]);
        let Some(line) = read else {
            continue;
        };
        base -= rows_of(line);
        let first = waiting_row(0, depth, &waiting);
        let second = waiting_row(1, depth, &waiting);
        let at = 6 * base;
        put_line(sizes, line, base, follows, first, second, &mut rows[at..]);
        let left = left_before(line, base, follows, depth, &mut waiting);
        follows = left.follows;
        depth = left.depth;
    }
    put_block_row(0, follows, 0, rows);
}
