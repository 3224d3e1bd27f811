// The rows of each line.
ghost use Rattle.std.specs.Prelude.{◌≡◌, [], ◌∷◌, ◌++◌, ◌+◌, ◌≤◌, ◌<◌, pos, length};
ghost use Rattle.words.specs.Over.{over};
ghost use Rattle.language_emission.specs.Emission.{row_of, emit_expression};
ghost use Rattle.writers_rows.specs.Atoms.{atom_tree as kernel_tree, AtomFits as KernelFits};
ghost use Rattle.writers_rows.specs.Room.{Room};
ghost use Rattle.page_words.specs.Texts.{LineFits};
ghost use Rattle.page_blocks.specs.Scans.{line_rows};
ghost use Rattle.page_rows.specs.Rows.{block_row, line_table};
ghost use Rattle.page_rows.specs.Fits.{most_names, SmallSizes};

use super::assignments::{put_element, put_named};
use super::atoms::{kernel_atom, variable_number};
use super::functions::{
    put_argument, put_call, put_function, put_last_parameter, put_parameter, put_parameters,
};
use page::Sizes;
use page_words::LineContent;
use writers_rows::control::{
    put_abort, put_block, put_empty, put_goto, put_if, put_label, put_return,
};
use writers_rows::rows::{behind, put_atom, put_row};

// The row of a block whose items begin at the row behind it, if it has any.
pub fn put_block_row(base: usize, follows: bool, next: usize, out: &mut [i32])
    requires { Room 1 base (length out.old) × (next < 65536) }
    ensures { out.new ≡ over (block_row base follows next) out.old }
{
    put_block(behind(follows, base + 1), next, out);
}

// A while, its atom, and the block of its body.
fn put_while(
    test: writers_rows::KernelAtom,
    base: usize,
    follows: bool,
    next: usize,
    out: &mut [i32],
)
    requires { Room 3 base (length out.old) × (next < 65536) × KernelFits test }
    ensures { out.new ≡ over ((row_of 44 (pos (base + 1)) (base + 2) 0 0 next ++ emit_expression (kernel_tree test) (base + 1)) ++ block_row (base + 2) follows 0) out.old }
{
    put_row(44, base + 1, base + 2, 0, next, out);
    put_atom(test, &mut out[6..]);
    put_block_row(base + 2, follows, 0, &mut out[12..]);
}

// An if, its atom, and the block of its first branch. The other branch stands at the row `second`.
fn put_branch(
    test: writers_rows::KernelAtom,
    base: usize,
    follows: bool,
    second: usize,
    next: usize,
    out: &mut [i32],
)
    requires { Room 3 base (length out.old) × (second < 65536) × (next < 65536) × KernelFits test }
    ensures { out.new ≡ over ((row_of 43 (pos (base + 1)) (base + 2) second 0 next ++ emit_expression (kernel_tree test) (base + 1)) ++ block_row (base + 2) follows 0) out.old }
{
    put_if(test, base, second, next, out);
    put_block_row(base + 2, follows, 0, &mut out[12..]);
}

// The rows of a line, from the start of the table on, which is row `base`; the two innermost rows that wait.
pub fn put_line(
    sizes: Sizes,
    line: LineContent,
    base: usize,
    follows: bool,
    first: usize,
    second: usize,
    out: &mut [i32],
)
    requires { Room (line_rows line) base (length out.old) × SmallSizes sizes × (first < 65536) × (second < 65536) × LineFits most_names line }
    ensures { out.new ≡ over (line_table sizes line base (record { follows = follows; waiting = first ∷ second ∷ [] })) out.old }
{
    match line {
        LineContent::Empty => put_empty(base, follows, out),
        LineContent::Abort => put_abort(base, follows, out),
        LineContent::Goto(label) => put_goto(label as usize, base, follows, out),
        LineContent::Label(label) => put_label(label as usize, base, follows, out),
        LineContent::Store(name, value) => put_named(sizes, name, value, base, follows, out),
        LineContent::Put(array, index, atom) => put_element(
            sizes, array, index, atom, base, follows, out,
        ),
        LineContent::Opens => put_block_row(base, follows, first, out),
        LineContent::While(atom) => put_while(kernel_atom(sizes, atom), base, follows, first, out),
        LineContent::If(atom) => put_branch(
            kernel_atom(sizes, atom),
            base,
            follows,
            first,
            second,
            out,
        ),
        LineContent::Turns => put_block_row(base, follows, 0, out),
        LineContent::Closes => {}
        LineContent::Return(atom) => put_return(kernel_atom(sizes, atom), base, follows, out),
        LineContent::OpensCall(name, function) => put_call(
            variable_number(sizes, name),
            function as usize,
            base,
            first,
            out,
        ),
        LineContent::Argument(atom) => put_argument(kernel_atom(sizes, atom), base, base + 2, out),
        LineContent::LastArgument(atom) => put_argument(kernel_atom(sizes, atom), base, 0, out),
        LineContent::OpensFunction(function) => put_function(
            function as usize,
            base,
            follows,
            first,
            out,
        ),
        LineContent::OpensParameters(function) => put_parameters(
            function as usize,
            base,
            first,
            second,
            out,
        ),
        LineContent::Parameter(word) => put_parameter(sizes.store + word as usize, base, out),
        LineContent::LastParameter(word) => put_last_parameter(
            sizes.store + word as usize,
            base,
            follows,
            out,
        ),
    }
}
