// The rows of the lines of calls and definitions.
ghost use Rattle.std.specs.Prelude.{◌≡◌, ◌++◌, ◌+◌, ◌≤◌, ◌<◌, pos, length};
ghost use Rattle.words.specs.Over.{over};
ghost use Rattle.language_emission.specs.Emission.{row_of, emit_expression};
ghost use Rattle.writers_rows.specs.Atoms.{atom_tree as kernel_tree, AtomFits as KernelFits};
ghost use Rattle.writers_rows.specs.Room.{Room};
ghost use Rattle.page_rows.specs.Rows.{block_row};

use super::lines::put_block_row;
use writers_rows::KernelAtom;
use writers_rows::rows::{put_atom, put_row};

// `P = fN(`: the statement, before the row `next` of its list, its assignment, the variable of this number, and the call, whose arguments stand behind it.
pub fn put_call(number: usize, function: usize, base: usize, next: usize, out: &mut [i32])
    requires { Room 4 base (length out.old) × (number < 65536) × (function < 65536) × (next < 65536) }
    ensures { out.new ≡ over (((row_of 41 (pos (base + 1)) 0 0 0 next ++ row_of 21 (pos (base + 2)) (base + 3) 0 0 0) ++ row_of 2 (pos number) 0 0 0 0) ++ row_of 31 (pos function) (base + 4) 0 0 0) out.old }
{
    put_row(41, base + 1, 0, 0, next, out);
    put_row(21, base + 2, base + 3, 0, 0, &mut out[6..]);
    put_row(2, number, 0, 0, 0, &mut out[12..]);
    put_row(31, function, base + 4, 0, 0, &mut out[18..]);
}

// `X,` and `X);`: the argument, before the row `next` of the argument behind it or 0, and its atom.
pub fn put_argument(value: KernelAtom, base: usize, next: usize, out: &mut [i32])
    requires { Room 2 base (length out.old) × (next < 65536) × KernelFits value }
    ensures { out.new ≡ over (row_of 32 (pos (base + 1)) 0 0 0 next ++ emit_expression (kernel_tree value) (base + 1)) out.old }
{
    put_row(32, base + 1, 0, 0, next, out);
    put_atom(value, &mut out[6..]);
}

// `int fN() {`: the definition, before the row `next` of its list, and its block.
pub fn put_function(function: usize, base: usize, follows: bool, next: usize, out: &mut [i32])
    requires { Room 2 base (length out.old) × (function < 65536) × (next < 65536) }
    ensures { out.new ≡ over (row_of 59 (pos function) 0 (base + 1) 0 next ++ block_row (base + 1) follows 0) out.old }
{
    put_row(59, function, 0, base + 1, next, out);
    put_block_row(base + 1, follows, 0, &mut out[6..]);
}

// `int fN(`: the definition, whose parameters stand behind it, and whose block at the row `body`.
pub fn put_parameters(function: usize, base: usize, body: usize, next: usize, out: &mut [i32])
    requires { Room 1 base (length out.old) × (function < 65536) × (body < 65536) × (next < 65536) }
    ensures { out.new ≡ over (row_of 59 (pos function) (base + 1) body 0 next) out.old }
{
    put_row(59, function, base + 1, body, next, out);
}

// `int lN,`: a parameter, the variable of this number, before another one.
pub fn put_parameter(number: usize, base: usize, out: &mut [i32])
    requires { Room 1 base (length out.old) × (number < 65536) }
    ensures { out.new ≡ over (row_of 58 (pos number) 0 0 0 (base + 1)) out.old }
{
    put_row(58, number, 0, 0, base + 1, out);
}

// `int lN) {`: the last parameter, and the function's block.
pub fn put_last_parameter(number: usize, base: usize, follows: bool, out: &mut [i32])
    requires { Room 2 base (length out.old) × (number < 65536) }
    ensures { out.new ≡ over (row_of 58 (pos number) 0 0 0 0 ++ block_row (base + 1) follows 0) out.old }
{
    put_row(58, number, 0, 0, 0, out);
    put_block_row(base + 1, follows, 0, &mut out[6..]);
}
