// The resolved table in code: passes along the links note every row's scope and function, a pass over the rows counts declarations; then each
// word is written by itself.
#![tactic(auto)]

pub mod counts; // counts.rt: how many declarations stand before each row
pub mod store_words; // store_words.rt: what a name means, and its store word
pub mod scopes; // scopes.rt: the scope of each row, and its function

ghost use Rattle.std.specs.Prelude.{◌≡◌, ◌/◌, ◌≤◌, length};
ghost use Rattle.words.specs.Over.{over};
ghost use Rattle.check_structure.specs.Structured.{Tree};
ghost use Rattle.names.specs.Names.{resolved};

use check_grammar::kinds::KindTable;
use counts::write_counts;
use scopes::{write_around, write_scopes};
use store_words::ScannedRows;

// Writes the resolved table of a source program, with the table of kinds. `store` is the number of words of the header's variables and
// arrays.
fn resolve_by(kinds: &KindTable, store: usize, rows: &[i32], out: &mut [i32])
    requires { Tree rows.now × (length rows.now / 6 ≤ 2048) × (store ≤ 8192) × (length rows.now ≤ length out.old) }
    ensures { out.new ≡ over (resolved store rows.now) out.old }
{
    let mut scopes = [0u16; 2048];
    let mut around = [0u16; 2048];
    let mut counts = [0u16; 2048];
    write_scopes(kinds, rows, &mut scopes);
    write_around(kinds, rows, &mut around);
    write_counts(rows, &mut counts);
    let scanned = ScannedRows {
        kinds: kinds,
        store: store,
        rows: rows,
        scopes: &scopes,
        around: &around,
        counts: &counts,
    };
    scanned.put_resolved(out);
}

// The same: the table of kinds is built here, once, and lent on.
pub fn resolve(store: usize, rows: &[i32], out: &mut [i32])
    requires { Tree rows.now × (length rows.now / 6 ≤ 2048) × (store ≤ 8192) × (length rows.now ≤ length out.old) }
    ensures { out.new ≡ over (resolved store rows.now) out.old }
{
    let kinds = KindTable::new();
    resolve_by(&kinds, store, rows, out)
}
