// The line that a statement's bytes are.
ghost use Rattle.std.specs.Prelude.{◌≡◌};
ghost use Rattle.page_words.specs.Reads.{call_of, store_of, put_of, assigned_of, assignment_of, argument_read, assignment_read, parameter_read, function_read, jump_read, test_read, line_read};

use super::values::value;
use page_atoms::atoms::{atom, element, name_of, number_below};
use page_atoms::compare::{is_framed, is_word};
use page_words::{LineContent, Names, PageAtom, Value};
use text_lines::line::piece_end;

fn call_of(name: Option<PageAtom>, number: Option<u32>) -> Option<LineContent>
    ensures { result ≡ call_of name number }
{
    Some(LineContent::OpensCall(name?, number?))
}

// A name takes any value.
fn store_of(name: Option<PageAtom>, value: Option<Value>) -> Option<LineContent>
    ensures { result ≡ store_of name value }
{
    Some(LineContent::Store(name?, value?))
}

// An element takes an atom.
fn put_of(array: u32, index: PageAtom, value: Option<Value>) -> Option<LineContent>
    ensures { result ≡ put_of array index value }
{
    match value? {
        Value::Single(single) => Some(LineContent::Put(array, index, single)),
        Value::Element(_, _) => None,
        Value::Minus(_) => None,
        Value::Binary(_, _, _) => None,
        Value::Call(_) => None,
    }
}

fn assigned_of(
    element: Option<(u32, PageAtom)>,
    name: Option<PageAtom>,
    value: Option<Value>,
) -> Option<LineContent>
    ensures { result ≡ assigned_of element name value }
{
    match element {
        Some((array, index)) => put_of(array, index, value),
        None => store_of(name, value),
    }
}

// An assignment by its target, and the rest from its first blank on.
fn assignment_of(names: Names, target: &[u8], rest: &[u8]) -> Option<LineContent>
    ensures { result ≡ assignment_of names target.now rest.now }
{
    if is_framed(b" = f", b"(", rest) {
        let last = rest.len() - 1;
        let called = number_below(&rest[4..last], 40980);
        return call_of(name_of(atom(names, target)), called);
    }
    if !is_framed(b" = ", b";", rest) {
        return None;
    }
    let last = rest.len() - 1;
    let assigned = value(names, &rest[3..last]);
    assigned_of(
        element(names, target),
        name_of(atom(names, target)),
        assigned,
    )
}

// `X,`, `X);`
fn argument(names: Names, text: &[u8]) -> Option<LineContent>
    ensures { result ≡ argument_read names text.now }
{
    if is_framed(b"", b",", text) {
        let last = text.len() - 1;
        return atom(names, &text[0..last]).map(LineContent::Argument);
    }
    if is_framed(b"", b");", text) {
        let last = text.len() - 2;
        return atom(names, &text[0..last]).map(LineContent::LastArgument);
    }
    None
}

// `P = X;` and the others with an equals sign; an argument has no blank.
fn assignment(names: Names, text: &[u8]) -> Option<LineContent>
    ensures { result ≡ assignment_read names text.now }
{
    let end = piece_end(text, 0, b' ');
    if end == text.len() {
        return argument(names, text);
    }
    assignment_of(names, &text[0..end], &text[end..])
}

// `if (X) {`, `while (X) {`, or an assignment.
fn tested(names: Names, text: &[u8]) -> Option<LineContent>
    ensures { result ≡ test_read names text.now }
{
    if is_framed(b"if (", b") {", text) {
        let last = text.len() - 3;
        return atom(names, &text[4..last]).map(LineContent::If);
    }
    if is_framed(b"while (", b") {", text) {
        let last = text.len() - 3;
        return atom(names, &text[7..last]).map(LineContent::While);
    }
    assignment(names, text)
}

// `int lN) {`, `int lN,`, or one of those.
fn parameter(names: Names, text: &[u8]) -> Option<LineContent>
    ensures { result ≡ parameter_read names text.now }
{
    if is_framed(b"int l", b") {", text) {
        let last = text.len() - 3;
        return number_below(&text[5..last], names.declared).map(LineContent::LastParameter);
    }
    if is_framed(b"int l", b",", text) {
        let last = text.len() - 1;
        return number_below(&text[5..last], names.declared).map(LineContent::Parameter);
    }
    tested(names, text)
}

// `return X;`, `int fN() {`, `int fN(`, or one of those.
fn function(names: Names, text: &[u8]) -> Option<LineContent>
    ensures { result ≡ function_read names text.now }
{
    if is_framed(b"return ", b";", text) {
        let last = text.len() - 1;
        return atom(names, &text[7..last]).map(LineContent::Return);
    }
    if is_framed(b"int f", b"() {", text) {
        let last = text.len() - 4;
        return number_below(&text[5..last], 40980).map(LineContent::OpensFunction);
    }
    if is_framed(b"int f", b"(", text) {
        let last = text.len() - 1;
        return number_below(&text[5..last], 40980).map(LineContent::OpensParameters);
    }
    parameter(names, text)
}

// `goto LN;`, `LN:;`, or one of those.
fn jump(names: Names, text: &[u8]) -> Option<LineContent>
    ensures { result ≡ jump_read names text.now }
{
    if is_framed(b"goto L", b";", text) {
        let last = text.len() - 1;
        return number_below(&text[6..last], 40980).map(LineContent::Goto);
    }
    if is_framed(b"L", b":;", text) {
        let last = text.len() - 2;
        return number_below(&text[1..last], 40980).map(LineContent::Label);
    }
    function(names, text)
}

// The lines that are one fixed word, or one of those.
pub fn line(names: Names, text: &[u8]) -> Option<LineContent>
    ensures { result ≡ line_read names text.now }
{
    if is_word(b";", text) {
        return Some(LineContent::Empty);
    }
    if is_word(b"{", text) {
        return Some(LineContent::Opens);
    }
    if is_word(b"}", text) {
        return Some(LineContent::Closes);
    }
    if is_word(b"} else {", text) {
        return Some(LineContent::Turns);
    }
    if is_word(b"abort();", text) {
        return Some(LineContent::Abort);
    }
    jump(names, text)
}
