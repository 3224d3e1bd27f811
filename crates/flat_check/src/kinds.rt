// The table of kinds: what the words of a line hold.
ghost use Rattle.std.specs.Prelude.{◌≡◌};
ghost use Rattle.flat.specs.Refusal.{shape as shape_with, shape_of, or_unused, constant_fits};

use flat::{Holds, LineShape};

// The shape of a line that holds this.
const fn shape(target: Holds, left: Holds, right: Holds, jumps: bool) -> LineShape
    ensures { result ≡ shape_with target left right jumps }
{
    LineShape {
        target,
        left,
        right,
        jumps,
    }
}

// What the words of a line of this kind hold, where there are lines of this kind.
pub fn shape_of(kind: usize) -> Option<LineShape>
    ensures { result ≡ shape_of kind }
{
    match kind {
        1 | 4 => Some(shape(Holds::Variable, Holds::Atom, Holds::Unused, false)),
        3 => Some(shape(Holds::Variable, Holds::Array, Holds::Atom, false)),
        6..=16 => Some(shape(Holds::Variable, Holds::Atom, Holds::Atom, false)),
        21 => Some(shape(Holds::Array, Holds::Atom, Holds::Atom, false)),
        43 | 44 => Some(shape(Holds::Unused, Holds::Atom, Holds::Unused, true)),
        52 => Some(shape(Holds::Unused, Holds::Unused, Holds::Unused, true)),
        57 => Some(shape(Holds::Unused, Holds::Unused, Holds::Unused, false)),
        _ => None,
    }
}

// The same, where a line of no kind uses no word.
pub fn shape_or_unused(kind: usize) -> LineShape
    ensures { result ≡ or_unused (shape_of kind) }
{
    shape_of(kind).unwrap_or(shape(Holds::Unused, Holds::Unused, Holds::Unused, false))
}

// Only an atom is told to be a constant.
pub fn constant_fits(constant: bool, holds: Holds) -> bool
    ensures { result ≡ constant_fits constant holds }
{
    match holds {
        Holds::Atom => true,
        Holds::Unused | Holds::Variable | Holds::Array => !constant,
    }
}
