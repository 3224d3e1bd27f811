// Sets of arrays: array a is bit a of one 32-bit word.
ghost use Rattle.std.specs.Prelude.{◌≡◌, ◌<◌, ◌^◌};
ghost use Rattle.std.specs.Int.Bits.{bit_or};
ghost use Rattle.write_sets.specs.Sets.{member_array, array_bits};

// The array alone.
pub fn array_bit(array: usize) -> u32
    requires { array < array_bits }
    ensures { result ≡ 2 ^ array }
{
    1u32 << array
}

// What is in either set.
pub fn join_arrays(a: u32, b: u32) -> u32
    ensures { result ≡ bit_or a b }
{
    a | b
}

// Whether the array is in the set.
pub fn has_array(arrays: u32, array: usize) -> bool
    requires { array < array_bits }
    ensures { result ≡ member_array arrays array }
{
    (arrays >> array) % 2 == 1
}
