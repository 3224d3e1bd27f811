// The definitions at the front of a program's list, and the parameters of a definition.
ghost use Rattle.std.specs.Prelude.{◌≡◌, ◌<◌};
ghost use Rattle.words.specs.Table.{row_count};
ghost use Rattle.language_shapes.specs.Source.{Source};
ghost use Rattle.write_sets_functions.specs.Definitions.{is_definition, defines, is_parameter};

use words::Kind;
use words::declarations::is_declaration;
use words_kinds::kind_at;

fn is_kind(kind: Kind) -> bool
    ensures { result ≡ is_definition kind }
{
    matches!(kind, Kind::Definition)
}

// Whether a link leads to a definition.
pub fn is_definition(rows: &[i32], link: usize) -> bool
    requires { Source rows.now × (link < row_count rows.now) }
    ensures { result ≡ defines rows.now link }
{
    if link == 0 {
        return false;
    }
    is_kind(kind_at(rows, link))
}

// Whether a link leads to a parameter.
pub fn is_parameter(rows: &[i32], link: usize) -> bool
    requires { Source rows.now × (link < row_count rows.now) }
    ensures { result ≡ is_parameter rows.now link }
{
    if link == 0 {
        return false;
    }
    is_declaration(rows, link)
}
