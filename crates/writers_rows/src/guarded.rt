// The rows of the guarded forms, beside the code of their guards and blocks.
ghost use Rattle.std.specs.Prelude.{◌≡◌, ◌≤◌, ◌<◌, length};
ghost use Rattle.language.specs.Trees.{abort, label, none, ◌then◌, ◌here◌};
ghost use Rattle.language_emission.specs.Emission.{emit_items};
ghost use Rattle.words.specs.Over.{over};
ghost use Rattle.writers_rows.specs.Room.{Room};
ghost use Rattle.writers_rows.specs.Atoms.{atom_tree, AtomFits};
ghost use Rattle.writers_rows.specs.Guarded.{arm_head, arm_end, rounds_end};

use super::KernelAtom;
use super::control::{put_abort, put_block, put_goto, put_if, put_label};
use super::rows::put_row;

// The rows that head an arm, behind the code of its guard: the if, its atom, and the block of its body, which takes `rows` rows before
// its goto. More follows.
pub fn put_arm_head(guard: KernelAtom, base: usize, rows: usize, out: &mut [i32])
    requires { Room 3 base (length out.old) × (rows < 65536) × AtomFits guard }
    ensures { out.new ≡ over (arm_head (atom_tree guard) base rows) out.old }
{
    put_if(guard, base, base + 4 + rows, base + 5 + rows, out);
    put_block(base + 3, 0, &mut out[12..]);
}

// The rows that end an arm: the goto behind its body, and the other block of its if, which is empty.
pub fn put_arm_end(number: usize, out: &mut [i32])
    requires { (12 ≤ length out.old) × (number < 65536) }
    ensures { out.new ≡ over (arm_end number) out.old }
{
    put_row(52, number, 0, 0, 0, out);
    put_block(0, 0, &mut out[6..]);
}

// What stands behind the arms of a guarded if: no guard was true; and the label to which arms go.
pub fn put_choice_end(number: usize, base: usize, follows: bool, out: &mut [i32])
    requires { Room 2 base (length out.old) × (number < 65536) }
    ensures { out.new ≡ over (emit_items follows (abort then label number here none) base) out.old }
{
    put_abort(base, true, out);
    put_label(number, base + 1, follows, &mut out[6..]);
}

// What stands behind the arms of a guarded do: no guard was true, so out of the loop; the label to which arms go; the label behind the loop.
pub fn put_rounds_end(number: usize, base: usize, follows: bool, out: &mut [i32])
    requires { Room 3 base (length out.old) × (number < 65535) }
    ensures { out.new ≡ over (rounds_end number base follows) out.old }
{
    put_goto(number, base, true, out);
    put_label(number + 1, base + 1, false, &mut out[6..]);
    put_label(number, base + 2, follows, &mut out[12..]);
}
