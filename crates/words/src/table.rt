// The words of a row, and the numbers they name.
ghost use Rattle.std.specs.Prelude.{◌≡◌, ◌+◌, ◌*◌, ◌<◌, length};
ghost use Rattle.words.specs.Word.{natural as natural_of};
ghost use Rattle.words.specs.Table.{word_at, number_at};

// A word as a number. A negative word names nothing, and becomes a number above every limit.
pub fn natural(word: i32) -> usize
    ensures { result ≡ natural_of word }
{
    if word < 0 {
        return 4294967296;
    }
    word as usize
}

// A field of a row, as it stands.
pub fn word_at(rows: &[i32], row: usize, field: usize) -> i32
    requires { 6 * row + field < length rows.now }
    ensures { result ≡ word_at rows.now row field }
{
    rows[6 * row + field]
}

// A field of a row as a link or a number.
pub fn number_at(rows: &[i32], row: usize, field: usize) -> usize
    requires { 6 * row + field < length rows.now }
    ensures { result ≡ number_at rows.now row field }
{
    natural(word_at(rows, row, field))
}
