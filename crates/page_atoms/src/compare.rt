// Whether bytes stand in others: alone, or around what is between them.
ghost use Rattle.std.specs.Prelude.{◌≡◌, ◌≤◌, length};
ghost use Rattle.page_words.specs.Compare.{is_word, is_framed};

// The text is this word.
pub fn is_word(word: &[u8], text: &[u8]) -> bool
    ensures { result ≡ is_word word.now text.now }
{
    text == word
}

// The text begins and ends so, and the two do not meet.
pub fn is_framed(before: &[u8], behind: &[u8], text: &[u8]) -> bool
    requires { (length before.now ≤ 100) × (length behind.now ≤ 100) }
    ensures { result ≡ is_framed before.now behind.now text.now }
{
    if text.len() < before.len() + behind.len() {
        return false;
    }
    text.starts_with(before) && text.ends_with(behind)
}
