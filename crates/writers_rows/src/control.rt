// Rows that say where a run goes on: blocks, ifs, loops, labels, gotos, aborts, returns, and empty statements.
ghost use Rattle.std.specs.Prelude.{◌≡◌, true, ◌++◌, ◌+◌, ◌^◌, ◌≤◌, ◌<◌, pos, length};
ghost use Rattle.words.specs.Word.{pick};
ghost use Rattle.language.specs.Trees.{read, variable, present, empty, block, if_else, goto, abort, give_back, label, none, ◌then◌, ◌here◌};
ghost use Rattle.language_emission.specs.Emission.{row_of, emit_expression, emit_items};
ghost use Rattle.words.specs.Over.{over};
ghost use Rattle.writers_rows.specs.Room.{Room};
ghost use Rattle.writers_rows.specs.Atoms.{atom_tree, AtomFits};
ghost use Rattle.writers_rows.specs.Straight.{loop_head};

use super::KernelAtom;
use super::rows::{behind, put_atom, put_row};

// The row of a block: the link to its first item, and its next field.
pub fn put_block(first: usize, next: usize, out: &mut [i32])
    requires { (6 ≤ length out.old) × (first < 2 ^ 31) × (next < 2 ^ 31) }
    ensures { out.new ≡ over (row_of 42 (pos first) 0 0 0 next) out.old }
{
    put_row(42, first, 0, 0, next, out);
}

// The row of an if and that of its test. The first branch follows; the second one stands at the row `second`.
pub fn put_if(test: KernelAtom, base: usize, second: usize, next: usize, out: &mut [i32])
    requires { Room 2 base (length out.old) × (second < 2 ^ 31) × (next < 2 ^ 31) × AtomFits test }
    ensures { out.new ≡ over (row_of 43 (pos (base + 1)) (base + 2) second 0 next ++ emit_expression (atom_tree test) (base + 1)) out.old }
{
    put_row(43, base + 1, base + 2, second, next, out);
    put_atom(test, &mut out[6..]);
}

// An item of one row, with the next field that an item has.
fn put_item(kind: usize, number: usize, base: usize, follows: bool, out: &mut [i32])
    requires { Room 1 base (length out.old) × (kind < 65536) × (number < 65536) }
    ensures { out.new ≡ over (row_of kind (pos number) 0 0 0 (pick follows (base + 1) 0)) out.old }
{
    put_row(kind, number, 0, 0, behind(follows, base + 1), out);
}

// An empty statement.
pub fn put_empty(base: usize, follows: bool, out: &mut [i32])
    requires { Room 1 base (length out.old) }
    ensures { out.new ≡ over (emit_items follows (empty then none) base) out.old }
{
    put_item(40, 0, base, follows, out);
}

pub fn put_goto(number: usize, base: usize, follows: bool, out: &mut [i32])
    requires { Room 1 base (length out.old) × (number < 65536) }
    ensures { out.new ≡ over (emit_items follows (goto number then none) base) out.old }
{
    put_item(52, number, base, follows, out);
}

// "Abort, no fields."
pub fn put_abort(base: usize, follows: bool, out: &mut [i32])
    requires { Room 1 base (length out.old) }
    ensures { out.new ≡ over (emit_items follows (abort then none) base) out.old }
{
    put_item(57, 0, base, follows, out);
}

pub fn put_label(number: usize, base: usize, follows: bool, out: &mut [i32])
    requires { Room 1 base (length out.old) × (number < 65536) }
    ensures { out.new ≡ over (emit_items follows (label number here none) base) out.old }
{
    put_item(53, number, base, follows, out);
}

// "A kernel return takes an atom."
pub fn put_return(value: KernelAtom, base: usize, follows: bool, out: &mut [i32])
    requires { Room 2 base (length out.old) × AtomFits value }
    ensures { out.new ≡ over (emit_items follows (give_back (present (atom_tree value)) then none) base) out.old }
{
    put_row(60, base + 1, 0, 0, behind(follows, base + 2), out);
    put_atom(value, &mut out[6..]);
}

// The rows that head a loop: the while, its constant test, and the block of its body, which takes `rows` rows.
pub fn put_loop(base: usize, rows: usize, out: &mut [i32])
    requires { Room 3 base (length out.old) × (rows < 65536) }
    ensures { out.new ≡ over (loop_head base rows) out.old }
{
    put_row(44, base + 1, base + 2, 0, base + 3 + rows, out);
    put_row(1, 1, 0, 0, 0, &mut out[6..]);
    put_block(base + 3, 0, &mut out[12..]);
}

// A block of a goto, as the branch of an if.
fn put_goto_block(number: usize, base: usize, out: &mut [i32])
    requires { Room 2 base (length out.old) × (number < 65536) }
    ensures { out.new ≡ over (row_of 42 (pos (base + 1)) 0 0 0 0 ++ row_of 52 (pos number) 0 0 0 0) out.old }
{
    put_block(base + 1, 0, out);
    put_row(52, number, 0, 0, 0, &mut out[6..]);
}

// The test of a loop, behind the code of its expression: where it is 0, go to the label.
pub fn put_exit(test: KernelAtom, number: usize, base: usize, follows: bool, out: &mut [i32])
    requires { Room 5 base (length out.old) × (number < 65536) × AtomFits test }
    ensures { out.new ≡ over (emit_items follows (if_else (atom_tree test) (block none) (block (goto number then none)) then none) base) out.old }
{
    put_if(test, base, base + 3, behind(follows, base + 5), out);
    put_block(0, 0, &mut out[12..]);
    put_goto_block(number, base + 3, &mut out[18..]);
}

// Where the variable is not 0, go to the label: what ends the test of a case. More follows.
pub fn put_jump(number: usize, target: usize, base: usize, out: &mut [i32])
    requires { Room 5 base (length out.old) × (number < 65536) × (target < 65536) }
    ensures { out.new ≡ over (emit_items true (if_else (read (variable number)) (block (goto target then none)) (block none) then none) base) out.old }
{
    put_if(KernelAtom::Variable(number), base, base + 4, base + 5, out);
    put_goto_block(target, base + 2, &mut out[12..]);
    put_block(0, 0, &mut out[24..]);
}
