// Cause 9: a walk down the links, which stops one level below the limit. It runs on a tree of rows, so each row is met once.
ghost use Rattle.std.specs.Prelude.{◌≡◌, ◌+◌, ◌/◌, ◌<◌, ◌≤◌, min, length};
ghost use Rattle.words.specs.Layout.{depth_limit};
ghost use Rattle.words.specs.Search.{lowest_row};
ghost use Rattle.check_structure.specs.Links.{depth_at, too_deep};
ghost use Rattle.check_structure.specs.Structured.{Tree};
ghost use Rattle.check_structure.specs.Passes.{Under, Through, LowestDeep};

use check_grammar::kinds::KindTable;
use words::Form;

pub fn depth_limit(form: Form) -> usize
    ensures { result ≡ depth_limit form }
{
    match form {
        Form::Source => 64,
        Form::Kernel => 512,
    }
}

fn lower(one: usize, other: usize) -> usize
    ensures { result ≡ min one other }
{
    if one <= other {
        return one;
    }
    other
}

// The lowest row over the limit in the list that begins at `first`, and below it; the number of rows where there is none.
#[cycle(lowest_depth)]
fn lowest_deep(kinds: &KindTable, limit: usize, rows: &[i32], first: usize, depth: usize) -> usize
    requires { Tree rows.now × (limit ≤ 512) × (first < length rows.now / 6) × (depth ≤ limit + 1) × (depth_at rows.now first ≡ depth) }
    ensures { LowestDeep limit rows.now (Under rows.now first) result }
{
    if limit < depth {
        return first;
    }
    let mut found = rows.len() / 6;
    let mut row = first;
    loop {
        found = lower(found, lowest_deep_parts(kinds, limit, rows, row, depth));
        let next = kinds.link(rows, row, 5);
        if next == 0 {
            return found;
        }
        row = next;
    }
}

// The same for the rows below a row, apart from those that follow it in its list.
#[cycle(lowest_depth)]
fn lowest_deep_parts(
    kinds: &KindTable,
    limit: usize,
    rows: &[i32],
    row: usize,
    depth: usize,
) -> usize
    requires { Tree rows.now × (limit ≤ 512) × (row < length rows.now / 6) × (depth ≤ limit) × (depth_at rows.now row ≡ depth) }
    ensures { LowestDeep limit rows.now (Through rows.now row 5) result }
{
    let mut found = rows.len() / 6;
    for field in 0..5 {
        let part = kinds.link(rows, row, field);
        if part != 0 {
            found = lower(found, lowest_deep(kinds, limit, rows, part, depth + 1));
        }
    }
    found
}

// The lowest row over the form's limit. The table of kinds is lent by the checks: built there, it shares the room of arrays that come later.
pub fn lowest_deep_by(kinds: &KindTable, form: Form, rows: &[i32]) -> Option<usize>
    requires { Tree rows.now }
    ensures { result ≡ lowest_row rows.now (too_deep form rows.now) }
{
    let found = lowest_deep(kinds, depth_limit(form), rows, 0, 1);
    if found < rows.len() / 6 {
        return Some(found);
    }
    None
}
