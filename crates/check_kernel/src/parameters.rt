// Cause 19 in a kernel program: two parameters of one function with one word. All its rows of kind 58 are parameters.
ghost use Rattle.std.specs.Prelude.{◌≡◌};
ghost use Rattle.words.specs.Search.{lowest_row};
ghost use Rattle.check_structure.specs.Structured.{Tree};
ghost use Rattle.check_declaration_causes.specs.Causes.{declared_before};

use check_declarations::DeclarationFault;
use check_declarations::breaks::lowest_breaking;
use check_declarations::notes::write_earlier;
use check_grammar::kinds::KindTable;
use words::declarations::declaration_count;

// With room for the notes.
fn lowest_named_twice(kinds: &KindTable, rows: &[i32]) -> Option<usize>
    requires { Tree rows.now }
    ensures { result ≡ lowest_row rows.now (declared_before rows.now) }
{
    let mut earlier = [0u16; 40980];
    write_earlier(kinds, rows, &mut earlier);
    lowest_breaking(DeclarationFault::DeclaredBefore, kinds, rows, &earlier)
}

// The same; a table without parameters costs no pass along the links.
pub fn lowest_parameter_twice(rows: &[i32]) -> Option<usize>
    requires { Tree rows.now }
    ensures { result ≡ lowest_row rows.now (declared_before rows.now) }
{
    if declaration_count(rows) == 0 {
        return None;
    }
    let kinds = KindTable::new();
    lowest_named_twice(&kinds, rows)
}
