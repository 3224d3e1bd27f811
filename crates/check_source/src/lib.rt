// The check of source programs: the causes that both forms share, then 7, 8 and 9, then those of declarations and of functions.
#![tactic(auto)]

use check_declarations::lower::lower_of;
use check_declarations::{declaration_refusal, lowest_outside_block};
use check_grammar::kinds::KindTable;
use check_marks::marks::lowest_repeated;
use check_places::notes::write_notes;
use check_places::places::lowest_misplaced;
use check_structure::causes::{at, structural_refusal};
use check_structure::depth::lowest_deep_by;
use functions::{functions_refusal, lowest_return_outside};
use words::declarations::declaration_count;
use words::{Cause, Form, Refusal};

pub mod functions; // functions.rt: the causes of functions, with room for what is known of the rows

ghost use Rattle.std.specs.Prelude.{◌≡◌, false, ◌/◌, ◌≤◌, length};
ghost use Rattle.check_structure.specs.Structured.{Tree};
ghost use Rattle.check_structure.specs.Refusal.{◌next◌, structural_refusal};
ghost use Rattle.words.specs.declared.Form.TheVariants.{Source};
ghost use Rattle.check_declaration_causes.specs.Causes.{declaration_refusal};
ghost use Rattle.check_function_causes.specs.Functions.{is_definition};
ghost use Rattle.check_function_causes.specs.Causes.{function_refusal};
ghost use Rattle.check_source.specs.Refusal.{wrongly_placed, later_refusal, refusal};
ghost use Rattle.check_places.specs.Passes.{AllNotes};
ghost use Rattle.check_notes.specs.RowNotes.{note_at};
ghost use Rattle.check_places.specs.Places.{in_loop, in_loop_or_switch, switch_item};
ghost use Rattle.check_structure.specs.Passes.{Notes};
ghost use Rattle.words.specs.Declarations.{declaration_count};
ghost use Rattle.words.specs.Search.{lowest_row};

// Cause 7, in a tree of rows, with the notes of its rows and the number of its declarations.
fn lowest_wrongly_placed(
    kinds: &KindTable,
    rows: &[i32],
    loops: &[u16],
    breakable: &[u16],
    items: &[u16],
    declared: usize,
) -> Option<usize>
    requires { Tree rows.now × (is_definition rows.now 0 ≡ false) × (length rows.now / 6 ≤ 2048) × Notes rows.now (note_at in_loop rows.now) loops.now × Notes rows.now (note_at in_loop_or_switch rows.now) breakable.now × Notes rows.now (note_at switch_item rows.now) items.now × (declared ≡ declaration_count rows.now) }
    ensures { result ≡ lowest_row rows.now (wrongly_placed rows.now) }
{
    let misplaced = lowest_misplaced(rows, loops, breakable, items);
    let outside = lowest_outside_block(kinds, rows, declared);
    let returned = lowest_return_outside(kinds, rows);
    lower_of(misplaced, lower_of(outside, returned))
}

// Causes 18 to 20, then 23 and 24, in a tree of rows, with the number of its declarations.
fn last_refusal(kinds: &KindTable, rows: &[i32], declared: usize) -> Result<(), Refusal>
    requires { Tree rows.now × (is_definition rows.now 0 ≡ false) × (length rows.now / 6 ≤ 2048) × (declared ≡ declaration_count rows.now) }
    ensures { result ≡ declaration_refusal rows.now next function_refusal rows.now }
{
    declaration_refusal(kinds, rows, declared)?;
    functions_refusal(kinds, rows)
}

// Causes 7 to 9 and those after 18, in a tree of rows, with the notes of its rows.
fn noted_refusal(
    kinds: &KindTable,
    rows: &[i32],
    loops: &[u16],
    breakable: &[u16],
    items: &[u16],
    before: &[u16],
) -> Result<(), Refusal>
    requires { Tree rows.now × (is_definition rows.now 0 ≡ false) × (length rows.now / 6 ≤ 2048) × AllNotes rows.now loops.now breakable.now items.now before.now }
    ensures { result ≡ later_refusal rows.now }
{
    let declared = declaration_count(rows);
    let misplaced = lowest_wrongly_placed(kinds, rows, loops, breakable, items, declared);
    at(Cause::Misplaced, misplaced)?;
    at(Cause::RepeatedMark, lowest_repeated(rows, before))?;
    at(Cause::TooDeep, lowest_deep_by(kinds, Form::Source, rows))?;
    last_refusal(kinds, rows, declared)
}

// Causes 7 to 9 and those after 18, in a tree of rows.
fn later_refusal_by(kinds: &KindTable, rows: &[i32]) -> Result<(), Refusal>
    requires { Tree rows.now × (is_definition rows.now 0 ≡ false) × (length rows.now / 6 ≤ 2048) }
    ensures { result ≡ later_refusal rows.now }
{
    let mut loops = [0u16; 2048];
    let mut breakable = [0u16; 2048];
    let mut items = [0u16; 2048];
    let mut before = [0u16; 2048];
    write_notes(
        kinds,
        rows,
        &mut loops,
        &mut breakable,
        &mut items,
        &mut before,
    );
    noted_refusal(kinds, rows, &loops, &breakable, &items, &before)
}

// The same, with the table of kinds: it is built here, once, and lent on.
fn later_refusal(rows: &[i32]) -> Result<(), Refusal>
    requires { Tree rows.now × (is_definition rows.now 0 ≡ false) × (length rows.now / 6 ≤ 2048) }
    ensures { result ≡ later_refusal rows.now }
{
    let kinds = KindTable::new();
    later_refusal_by(&kinds, rows)
}

// Causes 1 to 6, with room for the marks of a source program.
fn shared_refusal(header: &[i32], rows: &[i32]) -> Result<(), Refusal>
    ensures { result ≡ structural_refusal Source header.now rows.now }
{
    let mut marks = [0u8; 2048];
    structural_refusal(Form::Source, header, rows, &mut marks)
}

// The check: accepted, or the number of the first cause and its place.
pub fn check(header: &[i32], rows: &[i32]) -> Result<(), Refusal>
    ensures { result ≡ refusal header.now rows.now }
{
    shared_refusal(header, rows)?;
    later_refusal(rows)
}
