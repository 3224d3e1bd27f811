// Where the parts of a case stand in the input.
ghost use Rattle.std.specs.Prelude.{◌≤◌, ◌<◌, length};

use text_lines::line::piece_end;

// The position of the first such byte from `start` on, or the end.
pub fn find(bytes: &[u8], start: usize, byte: u8) -> usize
    requires { start ≤ length bytes.now }
    ensures { (start ≤ result) × (result ≤ length bytes.now) }
{
    piece_end(bytes, start, byte)
}

// The position behind the first such byte from `start` on, or the end.
pub fn behind(bytes: &[u8], start: usize, byte: u8) -> usize
    requires { start ≤ length bytes.now }
    ensures { (start ≤ result) × (result ≤ length bytes.now) × (start < length bytes.now → start < result) }
{
    let at = find(bytes, start, byte);
    if at < bytes.len() {
        return at + 1;
    }
    at
}
