// The words of the store at the start of a run, from a line of text.
ghost use Rattle.std.specs.Prelude.{◌≤◌, length};

use text_lines::line::{count_numbers, store_numbers};

// Puts the start words into the store, and tells how many they are: none, where they are no words or too many. The run is then
// refused.
pub fn start_words(line: &[u8], store: &mut [i32]) -> usize
    ensures { result ≤ length store.old }
{
    let count = count_numbers(line);
    let Some(n) = count else {
        return 0;
    };
    if n > store.len() {
        return 0;
    }
    store_numbers(line, store);
    n
}
