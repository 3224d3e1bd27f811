// The rows that wait for the lines that open their blocks or parentheses, in an array, the innermost last.
ghost use Rattle.std.specs.Prelude.{◌≡◌, false, ◌∷◌, ◌+◌, ◌-◌, ◌≤◌, ◌<◌, length, get_or};
ghost use Rattle.page_scan.specs.Stacks.{stack_of};
ghost use Rattle.page_rows.specs.Rows.{left_before};
ghost use Rattle.page_reader.specs.Stacks.{left_in};

use check_structure::row_number::{narrow, wide};
use page_words::LineContent;
use writers_rows::rows::behind;

// What the lines that are done leave to the line before them: whether an item follows in its list, and how many rows wait.
#[derive(Clone, Copy)]
pub struct Pending {
    pub follows: bool,
    pub depth: usize,
}

// The i-th row that waits, from the innermost, as the array holds it; 0 where there is none.
fn narrow_row(i: usize, depth: usize, waiting: &[u16; 81958]) -> u16
    requires { (depth ≤ 81958) × (length waiting.now ≡ 81958) }
    ensures { result ≡ get_or (stack_of depth waiting.now) i 0 }
{
    if i < depth {
        let at = depth - 1 - i;
        return waiting[at];
    }
    0
}

pub fn waiting_row(i: usize, depth: usize, waiting: &[u16; 81958]) -> usize
    requires { (depth ≤ 81958) × (length waiting.now ≡ 81958) }
    ensures { (result ≡ get_or (stack_of depth waiting.now) i 0) × (result < 65536) }
{
    wide(narrow_row(i, depth, waiting))
}

fn less(depth: usize, n: usize) -> usize
    ensures { result ≡ depth - n }
{
    if depth < n {
        return 0;
    }
    depth - n
}

// One row more waits, and a list begins.
fn set_aside(row: usize, depth: usize, waiting: &mut [u16; 81958]) -> Pending
    requires { (row < 65536) × (depth < 81958) × (length waiting.old ≡ 81958) }
    ensures waiting_after { left_in result waiting.new ≡ record { follows = false; waiting = row ∷ stack_of depth waiting.old } }
    ensures depth_bound { (result.depth ≤ depth + 1) × (length waiting.new ≡ 81958) }
{
    waiting[depth] = narrow(row);
    Pending {
        follows: false,
        depth: depth + 1,
    }
}

// What a line, whose rows begin at `base`, leaves with those behind it.
pub fn left_before(
    line: LineContent,
    base: usize,
    follows: bool,
    depth: usize,
    waiting: &mut [u16; 81958],
) -> Pending
    requires { (base + 2 < 65536) × (depth < 81958) × (length waiting.old ≡ 81958) }
    ensures waiting_after { left_in result waiting.new ≡ left_before line base (record { follows = follows; waiting = stack_of depth waiting.old }) }
    ensures depth_bound { (result.depth ≤ depth + 1) × (length waiting.new ≡ 81958) }
{
    match line {
        LineContent::Empty => Pending {
            follows: true,
            depth: depth,
        },
        LineContent::Abort => Pending {
            follows: true,
            depth: depth,
        },
        LineContent::Goto(_) => Pending {
            follows: true,
            depth: depth,
        },
        LineContent::Label(_) => Pending {
            follows: true,
            depth: depth,
        },
        LineContent::Store(_, _) => Pending {
            follows: true,
            depth: depth,
        },
        LineContent::Put(_, _, _) => Pending {
            follows: true,
            depth: depth,
        },
        LineContent::Opens => Pending {
            follows: true,
            depth: less(depth, 1),
        },
        LineContent::While(_) => Pending {
            follows: true,
            depth: less(depth, 1),
        },
        LineContent::If(_) => Pending {
            follows: true,
            depth: less(depth, 2),
        },
        LineContent::Turns => set_aside(base, depth, waiting),
        LineContent::Closes => set_aside(behind(follows, base), depth, waiting),
        LineContent::Return(_) => Pending {
            follows: true,
            depth: depth,
        },
        LineContent::OpensCall(_, _) => Pending {
            follows: true,
            depth: less(depth, 1),
        },
        LineContent::Argument(_) => Pending {
            follows: true,
            depth: depth,
        },
        LineContent::LastArgument(_) => set_aside(behind(follows, base + 2), depth, waiting),
        LineContent::OpensFunction(_) => Pending {
            follows: true,
            depth: less(depth, 1),
        },
        LineContent::OpensParameters(_) => Pending {
            follows: true,
            depth: less(depth, 2),
        },
        LineContent::Parameter(_) => Pending {
            follows: true,
            depth: depth,
        },
        LineContent::LastParameter(_) => set_aside(base + 1, depth, waiting),
    }
}
