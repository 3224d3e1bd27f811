// A search tree for the marks of each list: its nodes are the marks' rows, its root is the list's first mark, and at each node the next
// bit of a mark's key, from the lowest on, chooses the child. At most three different marks share a key of 31 bits, so no way down is
// longer than 34 nodes.
ghost use Rattle.std.specs.Prelude.{◌≡◌, true, ◌+◌, ◌*◌, ◌/◌, ◌<◌, ◌≤◌, length, get_or};
ghost use Rattle.std.specs.Int.Signed.{mag};
ghost use Rattle.words.specs.Table.{number_at};
ghost use Rattle.check_structure.specs.Structured.{Tree};
ghost use Rattle.check_structure.specs.Passes.{Notes};
ghost use Rattle.check_places.specs.Places.{is_mark};
ghost use Rattle.check_marks.specs.Marks.{same_mark, mark_before};
ghost use Rattle.check_marks.specs.MarkTree.{root_by, NodeBefore, Roots, Children, HoldsMarks, Placing, Taking};

use check_grammar::between;
use check_structure::row_number::{narrow, wide};
use words::table::{natural, number_at, word_at};

fn same_mark(rows: &[i32], mark: usize, row: usize) -> bool
    requires { (6 * mark + 5 < length rows.now) × (6 * row + 5 < length rows.now) }
    ensures { result ≡ same_mark rows.now mark row }
{
    if number_at(rows, mark, 0) == number_at(rows, row, 0) {
        return word_at(rows, mark, 1) == word_at(rows, row, 1);
    }
    false
}

// n for a word n, and for -(n + 1).
fn key_of(word: i32) -> usize
    ensures { result ≡ mag word }
{
    if word < 0 {
        return natural(-1 - word);
    }
    natural(word)
}

// The first mark of the row's list up to the row, or the row itself where no mark is before it.
fn root_of(before: &[u16], roots: &[u16], row: usize) -> u16
    requires { (row < 65536) × (row < length before.now) × (get_or before.now row 0 < length roots.now) }
    ensures { result ≡ root_by (get_or before.now row 0) roots.now row }
{
    let mark = wide(before[row]);
    if mark == 0 {
        return narrow(row);
    }
    roots[mark]
}

// The roots of all rows, in order: a mark stands behind those before it in its list.
pub fn write_roots(rows: &[i32], before: &[u16], roots: &mut [u16])
    requires { Tree rows.now × Notes rows.now (mark_before rows.now) before.now × (length rows.now / 6 ≤ length roots.old) }
    ensures { Roots rows.now (length rows.now / 6) roots.new }
{
    for row in 0..rows.len() / 6 {
        let root = root_of(before, roots, row);
        roots[row] = root;
    }
}

// Looks from the root down for the row's mark. Answers the absent child where its key leads, or nothing where an equal mark stands on
// the way.
fn free_place(rows: &[i32], children: &[u16], root: usize, row: usize) -> Option<usize>
    requires { Tree rows.now × Children rows.now row children.now × NodeBefore rows.now root row × (is_mark (number_at rows.now row 0) ≡ true) × (row < length rows.now / 6) }
    ensures { Placing rows.now children.now root row result }
{
    let mut node = root;
    let mut key = key_of(word_at(rows, row, 1));
    loop {
        if same_mark(rows, node, row) {
            return None;
        }
        let place = 2 * node + key % 2;
        let child = wide(children[place]);
        if child == 0 {
            return Some(place);
        }
        node = child;
        key = key / 2;
    }
}

// Takes a row into the tree of its list, if it is a mark; false where that is a repeated one.
pub fn take_in(rows: &[i32], roots: &[u16], children: &mut [u16], row: usize) -> bool
    requires { Tree rows.now × Roots rows.now (length rows.now / 6) roots.now × HoldsMarks rows.now roots.now row children.old × (row < length rows.now / 6) }
    ensures { Taking rows.now roots.now row children.new result }
{
    if !between(48, 49, number_at(rows, row, 0)) {
        return true;
    }
    let root = wide(roots[row]);
    if root == row {
        return true;
    }
    let place = free_place(rows, children, root, row);
    match place {
        Some(at) => {
            children[at] = narrow(row);
            true
        }
        None => false,
    }
}
