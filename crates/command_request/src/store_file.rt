// The words of a store file.
ghost use Rattle.std.specs.Prelude.{◌≡◌, ◌*◌, ◌≤◌, length};
ghost use Rattle.command_request.specs.StoreFile.{is_parting, store_in, ReadsStore};

use text_numbers::number::number;

fn is_parting(byte: u8) -> bool
    ensures { result ≡ is_parting byte }
{
    byte == b' ' || byte == b'\n'
}

// Reads the words of a file to the start of `table`, up to the first that is malformed. Each word takes a byte, and another parts it from
// the next.
pub fn read_words(text: &[u8], table: &mut [i32]) -> Result<usize, usize>
    requires { length text.now ≤ 2 * length table.old }
    ensures { ReadsStore (store_in text.now) result table.old table.new }
{
    let mut count: usize = 0;
    for piece in text.split(|&byte| is_parting(byte)) {
        if piece.is_empty() {
            continue;
        }
        let Some(word) = number(piece) else {
            return Err(count + 1);
        };
        table[count] = word;
        count += 1;
    }
    Ok(count)
}
