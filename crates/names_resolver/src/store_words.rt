// What a name means, and its store word.
ghost use Rattle.std.specs.Prelude.{◌≡◌, ◌+◌, ◌/◌, ◌<◌, ◌≤◌, pos, length};
ghost use Rattle.words.specs.Over.{over};
ghost use Rattle.names.specs.Names.{scope_at, meant_from, parameter_at, meant_at, variable_word, word_of, resolved_name, resolved_word, resolved};
ghost use Rattle.names_resolver.specs.Passes.{Scanned};

use check_grammar::kinds::KindTable;
use check_structure::row_number::wide;
use words::declarations::is_declaration;
use words::table::{number_at, word_at};

// "At most 64."
const LIMIT: usize = 64;

// The rows of a source program, with what is noted of each: its scope, its function, and how many declarations come before it; and how many words
// the header's variables and arrays have.
#[derive(Clone, Copy)]
pub struct ScannedRows<'a> {
    pub kinds: &'a KindTable,
    pub store: usize,
    pub rows: &'a [i32],
    pub scopes: &'a [u16],
    pub around: &'a [u16],
    pub counts: &'a [u16],
    ghost scanned: { Scanned rows.now scopes.now around.now counts.now },
    ghost small: { store ≤ 8192 },
}

impl ScannedRows<'_> {
    // The first declaration with the number, outward from the row's scope; 0 where there is none.
    fn declared(&self, row: usize, number: usize) -> usize
        requires { row < length self.now.rows.now / 6 }
        ensures { result ≡ meant_from 64 self.now.rows.now (scope_at self.now.rows.now row) number }
    {
        let mut declaration = wide(self.scopes[row]);
        for _outward in 0..LIMIT {
            if declaration == 0 {
                return 0;
            }
            if number_at(self.rows, declaration, 1) == number {
                return declaration;
            }
            declaration = wide(self.scopes[declaration]);
        }
        0
    }

    // The parameter with the number in the function that a row defines; 0 where there is none, and where the row is 0.
    fn parameter_named(&self, definition: usize, number: usize) -> usize
        requires { definition < length self.now.rows.now / 6 }
        ensures { result ≡ parameter_at self.now.rows.now definition number }
    {
        if definition == 0 {
            return 0;
        }
        let mut parameter = self.kinds.link(self.rows, definition, 2);
        for _passed in 0..LIMIT {
            if !is_declaration(self.rows, parameter) {
                return 0;
            }
            if number_at(self.rows, parameter, 1) == number {
                return parameter;
            }
            parameter = self.kinds.link(self.rows, parameter, 5);
        }
        0
    }

    // The declaration that a number means at a row, or 0: one around the row, or a parameter of its function.
    fn meant(&self, row: usize, number: usize) -> usize
        requires { row < length self.now.rows.now / 6 }
        ensures { result ≡ meant_at self.now.rows.now row number }
    {
        let declaration = self.declared(row, number);
        if declaration != 0 {
            return declaration;
        }
        self.parameter_named(wide(self.around[row]), number)
    }

    // The store word of a declaration.
    fn store_word(&self, declaration: usize) -> i32
        requires { declaration < length self.now.rows.now / 6 }
        ensures { result ≡ pos (word_of self.now.store self.now.rows.now declaration) }
    {
        (self.store + wide(self.counts[declaration])) as i32
    }

    // Field a of a row that names a variable.
    fn variable_word(&self, row: usize) -> i32
        requires { row < length self.now.rows.now / 6 }
        ensures { result ≡ variable_word self.now.store self.now.rows.now row }
    {
        let declaration = self.meant(row, number_at(self.rows, row, 1));
        if declaration == 0 {
            return word_at(self.rows, row, 1);
        }
        self.store_word(declaration)
    }

    // Field a of a row of the resolved table.
    fn resolved_name(&self, row: usize) -> i32
        requires { row < length self.now.rows.now / 6 }
        ensures { result ≡ resolved_name self.now.store self.now.rows.now row }
    {
        if is_declaration(self.rows, row) {
            return self.store_word(row);
        }
        if number_at(self.rows, row, 0) == 2 {
            return self.variable_word(row);
        }
        word_at(self.rows, row, 1)
    }

    // A word of the resolved table.
    fn resolved_word(&self, row: usize, field: usize) -> i32
        requires { (row < length self.now.rows.now / 6) × (field < 6) }
        ensures { result ≡ resolved_word self.now.store self.now.rows.now row field }
    {
        if field == 1 {
            return self.resolved_name(row);
        }
        word_at(self.rows, row, field)
    }

    // Writes every word of the resolved table.
    pub fn put_resolved(&self, out: &mut [i32])
        requires { length self.now.rows.now ≤ length out.old }
        ensures { out.new ≡ over (resolved self.now.store self.now.rows.now) out.old }
    {
        for word in 0..self.rows.len() {
            out[word] = self.resolved_word(word / 6, word % 6);
        }
    }
}
