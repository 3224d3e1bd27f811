// One pass over a page, from its first line to its last: its rows are counted, or the first line that is wrong is told.
#![tactic(auto)]

pub mod blocks; // blocks.rt: the blocks and parentheses that are open
pub mod rows; // rows.rt: the rows of a line, and the lines of a page

ghost use Rattle.std.specs.Prelude.{◌≡◌, ◌≤◌, ◌<◌, ◌+◌, ◌*◌, length};
ghost use Rattle.page_blocks.specs.Scans.{ended, scan as scan_of};
ghost use Rattle.page_scan.specs.Stacks.{blocks_of, end_of};

use self::blocks::{Among, is_among_items, pass_line};
use self::rows::{line_count, rows_of};
use page_frame::line_in;
use page_words::Names;

// Behind the last whole line: no byte is left, and nothing is open.
fn end(whole: bool, among: Among, depth: usize, rows: usize, next: usize) -> Result<usize, usize>
    ensures { result ≡ end_of whole among depth rows next }
{
    if !whole {
        return Err(next);
    }
    if !is_among_items(among) {
        return Err(next);
    }
    if depth == 0 {
        return Ok(rows);
    }
    Err(next)
}

pub fn scan(names: Names, page: &[u8]) -> Result<usize, usize>
    ensures { result ≡ scan_of names page.now }
{
    let count = line_count(page.len());
    let mut around = [0u8; 81958];
    let mut among = Among::Items;
    let mut depth: usize = 0;
    let mut rows: usize = 1;
    let mut k: usize = 0;
    while k < count {
        let number = k + 1;
        let at = 81 * k;
        let end = at + 81;
        let read = line_in(names, k as u32 + 1, depth, &page[at..end]);
        let Some(line) = read else {
            return Err(number);
        };
        let next = pass_line(line, among, depth, &mut around);
        let Some((standing, deeper)) = next else {
            return Err(number);
        };
        among = standing;
        depth = deeper;
        rows += rows_of(line);
        k = number;
    }
    end(81 * k == page.len(), among, depth, rows, k + 1)
}
