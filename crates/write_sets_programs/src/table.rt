// The words of the table of arrays.
ghost use Rattle.std.specs.Prelude.{◌≡◌};
ghost use Rattle.write_sets_programs.specs.Arrays.{arrays_at, LinkHeld};

// The arrays of the row that a link leads to; an absent link writes nothing.
pub fn linked(arrays: &[u32], link: usize) -> u32
    requires { LinkHeld arrays.now link }
    ensures { result ≡ arrays_at arrays.now link }
{
    if link == 0 {
        return 0;
    }
    arrays[link]
}
