// The sets in a table: those of the rows, by row; and before a row's own stands there, that of the function with its number.
ghost use Rattle.std.specs.Prelude.{◌≡◌, ◌≤◌, length};
ghost use Rattle.write_sets_rows.specs.WriteSets.{set_at, function_set, SetHeld};

use write_sets::WriteSet;

// The set of the row that a link leads to; an absent link writes nothing.
pub fn set_at(sets: &[WriteSet], link: usize) -> WriteSet
    requires { SetHeld sets.now link }
    ensures { result ≡ set_at sets.now link }
{
    if link == 0 {
        return WriteSet::nothing();
    }
    sets[link]
}

// The set of a function; those from `known` on are taken to write nothing.
pub fn function_set(sets: &[WriteSet], known: usize, function: usize) -> WriteSet
    requires { known ≤ length sets.now }
    ensures { result ≡ function_set sets.now known function }
{
    if function < known {
        return sets[function];
    }
    WriteSet::nothing()
}
