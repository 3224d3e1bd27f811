// Row numbers in 16 bits: as the checks keep them in their notes of rows.
ghost use Rattle.std.specs.Prelude.{◌≡◌, ◌<◌};

// A row number in 16 bits, and back.
pub fn narrow(row: usize) -> u16
    requires { row < 65536 }
    ensures { result ≡ row }
{
    row as u16
}

pub fn wide(row: u16) -> usize
    ensures { result ≡ row }
{
    row as usize
}
