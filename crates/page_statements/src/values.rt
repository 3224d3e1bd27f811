// Operators, and what is assigned.
ghost use Rattle.std.specs.Prelude.{◌≡◌};
ghost use Rattle.page_words.specs.Reads.{operator_of_one, operator_of_two, operator_read, single_of, binary_of, binary_read, several_read, single_read, value_read};

use page_atoms::atoms::{atom, element, number_below};
use page_atoms::compare::{is_framed, is_word};
use page_words::{Names, PageAtom, Value};
use text_lines::line::piece_end;
use words::Operator;

fn operator_of_one(byte: u8) -> Option<Operator>
    ensures { result ≡ operator_of_one byte }
{
    if byte == b'+' {
        return Some(Operator::Add);
    }
    if byte == b'-' {
        return Some(Operator::Subtract);
    }
    if byte == b'*' {
        return Some(Operator::Multiply);
    }
    if byte == b'/' {
        return Some(Operator::Divide);
    }
    if byte == b'%' {
        return Some(Operator::Remainder);
    }
    if byte == b'<' {
        return Some(Operator::Less);
    }
    if byte == b'>' {
        return Some(Operator::Greater);
    }
    None
}

// The operators that end in `=`, by their first byte.
fn operator_of_two(byte: u8) -> Option<Operator>
    ensures { result ≡ operator_of_two byte }
{
    if byte == b'<' {
        return Some(Operator::LessOrEqual);
    }
    if byte == b'>' {
        return Some(Operator::GreaterOrEqual);
    }
    if byte == b'=' {
        return Some(Operator::Equal);
    }
    if byte == b'!' {
        return Some(Operator::NotEqual);
    }
    None
}

fn operator(word: &[u8]) -> Option<Operator>
    ensures { result ≡ operator_read word.now }
{
    if word.len() == 1 {
        return operator_of_one(word[0]);
    }
    if word.len() != 2 {
        return None;
    }
    if word[1] != b'=' {
        return None;
    }
    operator_of_two(word[0])
}

fn single_of(element: Option<(u32, PageAtom)>, atom: Option<PageAtom>) -> Option<Value>
    ensures { result ≡ single_of element atom }
{
    if let Some((array, index)) = element {
        return Some(Value::Element(array, index));
    }
    atom.map(Value::Single)
}

fn binary_of(
    operator: Option<Operator>,
    left: Option<PageAtom>,
    right: Option<PageAtom>,
) -> Option<Value>
    ensures { result ≡ binary_of operator left right }
{
    Some(Value::Binary(operator?, left?, right?))
}

// `X op Y` by X, and what stands behind its blank.
fn binary(names: Names, first: &[u8], rest: &[u8]) -> Option<Value>
    ensures { result ≡ binary_read names first.now rest.now }
{
    let end = piece_end(rest, 0, b' ');
    if end == rest.len() {
        return None;
    }
    let next = end + 1;
    let operation = operator(&rest[0..end]);
    let left = atom(names, first);
    let right = atom(names, &rest[next..]);
    binary_of(operation, left, right)
}

// `- X` or `X op Y`.
fn several(names: Names, first: &[u8], rest: &[u8]) -> Option<Value>
    ensures { result ≡ several_read names first.now rest.now }
{
    if is_word(b"-", first) {
        return atom(names, rest).map(Value::Minus);
    }
    binary(names, first, rest)
}

// `f7()`, an element, or an atom.
fn single(names: Names, text: &[u8]) -> Option<Value>
    ensures { result ≡ single_read names text.now }
{
    if is_framed(b"f", b"()", text) {
        let last = text.len() - 2;
        return number_below(&text[1..last], 40980).map(Value::Call);
    }
    single_of(element(names, text), atom(names, text))
}

// What is assigned, without its semicolon.
pub fn value(names: Names, text: &[u8]) -> Option<Value>
    ensures { result ≡ value_read names text.now }
{
    let end = piece_end(text, 0, b' ');
    if end == text.len() {
        return single(names, text);
    }
    let next = end + 1;
    several(names, &text[0..end], &text[next..])
}
