// Numbers, atoms and elements by their bytes.
ghost use Rattle.std.specs.Prelude.{◌≡◌};
ghost use Rattle.page_words.specs.Reads.{number_read, atom_read, name_of, element_in, element_read};

use super::compare::is_framed;
use page_words::{Names, PageAtom};
use text_lines::line::piece_end;
use text_numbers::number::{natural_of, number};

// A number below a bound.
pub fn number_below(word: &[u8], bound: u32) -> Option<u32>
    ensures { result ≡ number_read bound word.now }
{
    let value = natural_of(word, bound)?;
    if value < bound {
        return Some(value);
    }
    None
}

// `v7`, `l7`, `t7`, `-7`
pub fn atom(names: Names, word: &[u8]) -> Option<PageAtom>
    ensures { result ≡ atom_read names word.now }
{
    if word.len() == 0 {
        return None;
    }
    let first = word[0];
    if first == b'v' {
        return number_below(&word[1..], names.variables).map(PageAtom::Variable);
    }
    if first == b'l' {
        return number_below(&word[1..], names.declared).map(PageAtom::Declared);
    }
    if first == b't' {
        return number_below(&word[1..], names.temporaries).map(PageAtom::Temporary);
    }
    number(word).map(PageAtom::Constant)
}

// An atom that is a name.
pub fn name_of(atom: Option<PageAtom>) -> Option<PageAtom>
    ensures { result ≡ name_of atom }
{
    match atom? {
        PageAtom::Constant(_) => None,
        PageAtom::Variable(number) => Some(PageAtom::Variable(number)),
        PageAtom::Declared(number) => Some(PageAtom::Declared(number)),
        PageAtom::Temporary(number) => Some(PageAtom::Temporary(number)),
    }
}

// An element without its letter and its last bracket.
fn element_in(names: Names, inner: &[u8]) -> Option<(u32, PageAtom)>
    ensures { result ≡ element_in names inner.now }
{
    let end = piece_end(inner, 0, b'[');
    if end == inner.len() {
        return None;
    }
    let next = end + 1;
    let array = number_below(&inner[0..end], names.arrays)?;
    let index = atom(names, &inner[next..])?;
    Some((array, index))
}

// `a7[X]`
pub fn element(names: Names, word: &[u8]) -> Option<(u32, PageAtom)>
    ensures { result ≡ element_read names word.now }
{
    if !is_framed(b"a", b"]", word) {
        return None;
    }
    let end = word.len() - 1;
    element_in(names, &word[1..end])
}
