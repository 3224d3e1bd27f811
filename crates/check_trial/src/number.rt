// The decimal numbers of a text; all other bytes part them.
ghost use Rattle.std.specs.Prelude.{◌≤◌, length};

// The part of a number that was read.
#[derive(Clone, Copy)]
struct Number {
    negative: bool,
    magnitude: u64,
}

impl Number {
    // One digit more; a number of more than ten digits keeps the first ones.
    fn longer(self, digit: u8) -> Number {
        if self.magnitude < 1000000000 {
            return Number {
                magnitude: self.magnitude * 10 + u64::from(digit % 16),
                ..self
            };
        }
        self
    }

    // The number as a word; one that is too large gives the least word.
    fn word(self) -> i32 {
        let word = i32::try_from(self.magnitude).unwrap_or(i32::MIN);
        if self.negative {
            return word.wrapping_neg();
        }
        word
    }
}

// What a byte between two numbers begins: a number, or nothing.
fn begun(byte: u8) -> Option<Number> {
    let nothing = Number {
        negative: byte == b'-',
        magnitude: 0,
    };
    if byte == b'-' {
        return Some(nothing);
    }
    if b'0' <= byte {
        return Some(nothing.longer(byte));
    }
    None
}

// One word more, if there is room for it.
fn put(words: &mut [i32], count: usize, word: i32) -> usize
    requires { count ≤ length words.old }
    ensures { result ≤ length words.old }
{
    if count < words.len() {
        words[count] = word;
        return count + 1;
    }
    count
}

// The numbers of a text, and how many they are. The byte that ends a number is no part of the next.
pub fn numbers(text: &[u8], words: &mut [i32]) -> usize
    ensures { result ≤ length words.old }
{
    let mut count = 0;
    let mut read: Option<Number> = None;
    for &byte in text {
        match read {
            Some(number) if byte < b'0' => {
                count = put(words, count, number.word());
                read = None;
            }
            Some(number) => read = Some(number.longer(byte)),
            None => read = begun(byte),
        }
    }
    if let Some(number) = read {
        count = put(words, count, number.word());
    }
    count
}
