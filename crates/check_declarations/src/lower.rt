// The lower of the rows that two searches found.
ghost use Rattle.std.specs.Prelude.{◌≡◌};
ghost use Rattle.check_declarations.specs.Lower.{lower as lower_of};

// The lower of a row and of one that a search found.
fn lower_than(row: usize, other: Option<usize>) -> Option<usize>
    ensures { result ≡ lower_of (Some row) other }
{
    match other {
        Some(found) => {
            if found < row {
                return Some(found);
            }
            Some(row)
        }
        None => Some(row),
    }
}

// The lower of the rows that two searches found.
pub fn lower_of(one: Option<usize>, other: Option<usize>) -> Option<usize>
    ensures { result ≡ lower_of one other }
{
    match one {
        Some(row) => lower_than(row, other),
        None => other,
    }
}
