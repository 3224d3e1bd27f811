// The words of a line, and what its operation and its distance say.
ghost use Rattle.std.specs.Prelude.{◌≡◌, ◌+◌, ◌*◌, ◌<◌, length};
ghost use Rattle.std.specs.Int.Signed.{mag};
ghost use Rattle.flat.specs.Words.{field_at, operation_at, kind_of, left_constant, right_constant};

use words::table::natural;

// A field of a line, as it stands.
pub fn word_at(list: &[i32], line: usize, field: usize) -> i32
    requires { 5 * line + field < length list.now }
    ensures { result ≡ field_at list.now line field }
{
    list[5 * line + field]
}

pub fn operation_at(list: &[i32], line: usize) -> usize
    requires { 5 * line < length list.now }
    ensures { result ≡ operation_at list.now line }
{
    natural(word_at(list, line, 0))
}

// The kind that an operation is of.
pub fn operation_kind(operation: usize) -> usize
    ensures { result ≡ kind_of operation }
{
    operation % 64
}

pub fn left_constant(operation: usize) -> bool
    ensures { result ≡ left_constant operation }
{
    64 <= operation % 128
}

pub fn right_constant(operation: usize) -> bool
    ensures { result ≡ right_constant operation }
{
    128 <= operation
}

// How far a distance goes: n for n, and for −(n + 1).
pub fn magnitude(distance: i32) -> usize
    ensures { result ≡ mag distance }
{
    if distance < 0 {
        return (-1 - distance) as usize;
    }
    distance as usize
}
