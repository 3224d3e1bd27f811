// The causes that declarations add to the check, in code: 18, 19 and 20 in order, and 7 for a declaration.
#![tactic(auto)]

use breaks::lowest_breaking;
use check_grammar::kinds::KindTable;
use check_structure::causes::at;
use lower::lower_of;
use names_resolver::counts::write_counts;
use notes::{write_block_items, write_bodies, write_earlier};
use words::declarations::declaration_count;
use words::{Cause, Refusal};

pub mod breaks; // breaks.rt: the lowest row that breaks a cause
pub mod initial; // initial.rt: cause 18, a walk down an initial expression
pub mod lower; // lower.rt: the lower of the rows that two searches found
pub mod notes; // notes.rt: the notes of each row that the causes look up

ghost use Rattle.std.specs.Prelude.{◌≡◌, ◌/◌, ◌≤◌, length};
ghost use Rattle.words.specs.Search.{lowest_row};
ghost use Rattle.check_structure.specs.Structured.{Tree};
ghost use Rattle.check_structure.specs.Passes.{Notes};
ghost use Rattle.words.specs.Declarations.{is_declaration, declaration_count, declarations_before};
ghost use Rattle.check_items.specs.Items.{earlier_at};
ghost use Rattle.check_parameter_causes.specs.Parameters.{body_at};
ghost use Rattle.check_declaration_causes.specs.Causes.{outside_block, declared_twice, declaration_refusal};

// What a declaration can break.
#[derive(Clone, Copy)]
pub enum DeclarationFault {
    // 7
    OutsideBlock,
    // 18
    NamesItself,
    // 19
    DeclaredBefore,
    // 19, of a declaration in a function's block
    DeclaredAsParameter,
    // 20
    OneTooMany,
}

// Cause 19, with the notes of the rows.
fn lowest_twice(kinds: &KindTable, rows: &[i32], earlier: &[u16], bodies: &[u16]) -> Option<usize>
    requires { Tree rows.now × Notes rows.now (earlier_at (is_declaration rows.now) rows.now) earlier.now × Notes rows.now (body_at rows.now) bodies.now }
    ensures { result ≡ lowest_row rows.now (declared_twice rows.now) }
{
    let before = lowest_breaking(DeclarationFault::DeclaredBefore, kinds, rows, earlier);
    let parameter = lowest_breaking(DeclarationFault::DeclaredAsParameter, kinds, rows, bodies);
    lower_of(before, parameter)
}

// Causes 18 to 20, in a tree of rows, with the notes and the counts of its rows.
fn noted_refusal(
    kinds: &KindTable,
    rows: &[i32],
    earlier: &[u16],
    bodies: &[u16],
    counts: &[u16],
) -> Result<(), Refusal>
    requires { Tree rows.now × Notes rows.now (earlier_at (is_declaration rows.now) rows.now) earlier.now × Notes rows.now (body_at rows.now) bodies.now × Notes rows.now (declarations_before rows.now) counts.now }
    ensures { result ≡ declaration_refusal rows.now }
{
    let own = lowest_breaking(DeclarationFault::NamesItself, kinds, rows, counts);
    at(Cause::NamesItself, own)?;
    at(
        Cause::DeclaredTwice,
        lowest_twice(kinds, rows, earlier, bodies),
    )?;
    at(
        Cause::TooManyDeclared,
        lowest_breaking(DeclarationFault::OneTooMany, kinds, rows, counts),
    )
}

// The same, with room for the notes and the counts.
fn declared_refusal(kinds: &KindTable, rows: &[i32]) -> Result<(), Refusal>
    requires { Tree rows.now × (length rows.now / 6 ≤ 2048) }
    ensures { result ≡ declaration_refusal rows.now }
{
    let mut earlier = [0u16; 2048];
    let mut bodies = [0u16; 2048];
    let mut counts = [0u16; 2048];
    write_earlier(kinds, rows, &mut earlier);
    write_bodies(kinds, rows, &mut bodies);
    write_counts(rows, &mut counts);
    noted_refusal(kinds, rows, &earlier, &bodies, &counts)
}

// Causes 18 to 20, in a tree of rows, with the number of its declarations. Most tables have none, and cost no pass along the links.
pub fn declaration_refusal(kinds: &KindTable, rows: &[i32], declared: usize) -> Result<(), Refusal>
    requires { Tree rows.now × (length rows.now / 6 ≤ 2048) × (declared ≡ declaration_count rows.now) }
    ensures { result ≡ declaration_refusal rows.now }
{
    if declared == 0 {
        return Ok(());
    }
    declared_refusal(kinds, rows)
}

// Cause 7, with room for the notes.
fn lowest_declared_outside(kinds: &KindTable, rows: &[i32]) -> Option<usize>
    requires { Tree rows.now × (length rows.now / 6 ≤ 2048) }
    ensures { result ≡ lowest_row rows.now (outside_block rows.now) }
{
    let mut items = [0u16; 2048];
    write_block_items(kinds, rows, &mut items);
    lowest_breaking(DeclarationFault::OutsideBlock, kinds, rows, &items)
}

// Cause 7 for declarations: the lowest that is no item of a block, in a tree of rows, with their number.
pub fn lowest_outside_block(kinds: &KindTable, rows: &[i32], declared: usize) -> Option<usize>
    requires { Tree rows.now × (length rows.now / 6 ≤ 2048) × (declared ≡ declaration_count rows.now) }
    ensures { result ≡ lowest_row rows.now (outside_block rows.now) }
{
    if declared == 0 {
        return None;
    }
    lowest_declared_outside(kinds, rows)
}
