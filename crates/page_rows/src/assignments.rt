// The rows of lines that assign.
ghost use Rattle.std.specs.Prelude.{◌≡◌, ◌+◌, ◌≤◌, ◌<◌, length};
ghost use Rattle.words.specs.Over.{over};
ghost use Rattle.language.specs.Trees.{assign, call, variable, no_more, express, none, ◌then◌};
ghost use Rattle.language_emission.specs.Emission.{emit_items};
ghost use Rattle.writers_rows.specs.Room.{Room};
ghost use Rattle.page_words.specs.Texts.{AtomFits, NameFits, ElementFits, ValueFits};
ghost use Rattle.page_words.specs.Trees.{value_tree};
ghost use Rattle.page_words.specs.declared.LineContent.TheVariants.{Store, Put};
ghost use Rattle.page_blocks.specs.Scans.{value_rows};
ghost use Rattle.page_rows.specs.Rows.{line_item};
ghost use Rattle.page_rows.specs.Fits.{most_names, SmallSizes};

use super::atoms::{kernel_atom, variable_number};
use page::Sizes;
use page_words::{PageAtom, Value};
use writers_rows::assignments::{
    put_binary, put_copy, put_fetch, put_minus, put_store, put_target,
};
use writers_rows::rows::put_row;

// A call without arguments, assigned to the variable of this number.
fn put_called(number: usize, function: usize, base: usize, follows: bool, out: &mut [i32])
    requires { Room 4 base (length out.old) × (number < 65536) × (function < 65536) }
    ensures { out.new ≡ over (emit_items follows (express (assign (variable number) (call function no_more)) then none) base) out.old }
{
    put_target(2, number, 0, base + 3, 4, base, follows, out);
    put_row(31, function, 0, 0, 0, &mut out[18..]);
}

// A value assigned to the variable of this number.
fn put_value(sizes: Sizes, number: usize, value: Value, base: usize, follows: bool, out: &mut [i32])
    requires { Room (3 + value_rows value) base (length out.old) × SmallSizes sizes × (number < 65536) × ValueFits most_names value }
    ensures { out.new ≡ over (emit_items follows (express (assign (variable number) (value_tree sizes value)) then none) base) out.old }
{
    match value {
        Value::Single(atom) => put_copy(number, kernel_atom(sizes, atom), base, follows, out),
        Value::Element(array, index) => put_fetch(
            number,
            array as usize,
            kernel_atom(sizes, index),
            base,
            follows,
            out,
        ),
        Value::Minus(atom) => put_minus(number, kernel_atom(sizes, atom), base, follows, out),
        Value::Binary(operator, left, right) => put_binary(
            number,
            operator,
            kernel_atom(sizes, left),
            kernel_atom(sizes, right),
            base,
            follows,
            out,
        ),
        Value::Call(function) => put_called(number, function as usize, base, follows, out),
    }
}

// A value assigned to a name.
pub fn put_named(
    sizes: Sizes,
    name: PageAtom,
    value: Value,
    base: usize,
    follows: bool,
    out: &mut [i32],
)
    requires { Room (3 + value_rows value) base (length out.old) × SmallSizes sizes × NameFits most_names name × ValueFits most_names value }
    ensures { out.new ≡ over (emit_items follows (line_item sizes (Store name value)) base) out.old }
{
    put_value(
        sizes,
        variable_number(sizes, name),
        value,
        base,
        follows,
        out,
    );
}

// An atom assigned to an element.
pub fn put_element(
    sizes: Sizes,
    array: u32,
    index: PageAtom,
    atom: PageAtom,
    base: usize,
    follows: bool,
    out: &mut [i32],
)
    requires { Room 5 base (length out.old) × SmallSizes sizes × ElementFits most_names array index × AtomFits most_names atom }
    ensures { out.new ≡ over (emit_items follows (line_item sizes (Put array index atom)) base) out.old }
{
    put_store(
        array as usize,
        kernel_atom(sizes, index),
        kernel_atom(sizes, atom),
        base,
        follows,
        out,
    );
}
