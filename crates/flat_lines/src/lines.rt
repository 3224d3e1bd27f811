// Five words at a line; a test and a jump, with the distance counted from the following line.
ghost use Rattle.std.specs.Prelude.{◌≡◌, true, [], ◌∷◌, ◌+◌, ◌*◌, ◌≤◌, ◌<◌, pos, length};
ghost use Rattle.std.proofs.lemmas.List.Edits.{sets};
ghost use Rattle.words.specs.Table.{row_count};
ghost use Rattle.language.specs.Decode.{expression_at};
ghost use Rattle.check_kernel_statements.specs.Statements.{is_atom};
ghost use Rattle.flat_kernel_rows.specs.KernelTable.{KernelTable};
ghost use Rattle.flat.specs.Words.{parts, unused, sort_of, distance as distance_of};
ghost use Rattle.flat_fate.specs.Code.{operand_of};
ghost use Rattle.flat_rows.specs.LinesPut.{put_line};

use words::table::{number_at, word_at};

// Stores the five words of a line.
pub fn put_line(
    out: &mut [i32],
    line: usize,
    operation: usize,
    target: usize,
    left: i32,
    right: i32,
    distance: i32,
)
    requires { (5 * line + 5 ≤ length out.old) × (operation < 65536) × (target < 65536) }
    ensures { out.new ≡ sets out.old (5 * line) (pos operation ∷ pos target ∷ left ∷ right ∷ distance ∷ []) }
{
    let at = 5 * line;
    out[at] = operation as i32;
    out[at + 1] = target as i32;
    out[at + 2] = left;
    out[at + 3] = right;
    out[at + 4] = distance;
}

// From a line to another, counted from the following line.
pub fn distance_to(line: usize, to: usize) -> i32
    requires { (line < 65536) × (to < 65536) }
    ensures { result ≡ distance_of line to }
{
    if line < to {
        return (to - (line + 1)) as i32;
    }
    -1 - ((line - to) as i32)
}

// Whether an atom is a constant: 1 or 0.
pub fn atom_sort(rows: &[i32], atom: usize) -> usize
    requires { KernelTable rows.now × (atom < row_count rows.now) × (is_atom rows.now atom ≡ true) }
    ensures { (result ≡ sort_of (operand_of (expression_at rows.now atom))) × (result ≤ 1) }
{
    if number_at(rows, atom, 0) == 1 {
        return 1;
    }
    0
}

// A line that tests an atom and jumps.
pub fn put_test(out: &mut [i32], rows: &[i32], kind: usize, atom: usize, line: usize, to: usize)
    requires { KernelTable rows.now × (atom < row_count rows.now) × (is_atom rows.now atom ≡ true) × (5 * line + 5 ≤ length out.old) × (kind < 64) × (line < 65536) × (to < 65536) }
    ensures { out.new ≡ put_line line (parts kind 0 (operand_of (expression_at rows.now atom)) unused (distance_of line to)) out.old }
{
    let sort = atom_sort(rows, atom);
    let word = word_at(rows, atom, 1);
    put_line(
        out,
        line,
        kind + 64 * sort,
        0,
        word,
        0,
        distance_to(line, to),
    );
}

// A line that jumps.
pub fn put_jump(out: &mut [i32], line: usize, to: usize)
    requires { (5 * line + 5 ≤ length out.old) × (line < 65536) × (to < 65536) }
    ensures { out.new ≡ put_line line (parts 52 0 unused unused (distance_of line to)) out.old }
{
    put_line(out, line, 52, 0, 0, 0, distance_to(line, to));
}
