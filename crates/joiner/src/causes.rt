// What a join refuses before it writes: the first's own causes, the second's, unequal headers, too many rows, a join too deep, a 65th declaration.
ghost use Rattle.std.specs.Prelude.{◌≡◌, ◌+◌, length};
ghost use Rattle.check_structure.specs.Structured.{Tree};
ghost use Rattle.check_structure.specs.Refusal.{◌next◌};
ghost use Rattle.check_source.specs.Refusal.{refusal};
ghost use Rattle.join.specs.Join.{joined_rows, rows_refusal, own_refusal};
ghost use Rattle.joiner.specs.Joinable.{Joinable};

use super::declarations::lowest_too_many;
use check_grammar::kinds::KindTable;
use check_structure::causes::at;
use check_structure::depth::lowest_deep_by;
use join_rows::rows::put_joined;
use words::{Cause, Form, Refusal};

// Causes 9 and 20 of the joined rows.
fn rows_refusal(kinds: &KindTable, rows: &[i32]) -> Result<(), Refusal>
    requires { Tree rows.now }
    ensures { result ≡ rows_refusal rows.now }
{
    at(Cause::TooDeep, lowest_deep_by(kinds, Form::Source, rows))?;
    at(Cause::TooManyDeclared, lowest_too_many(rows))
}

// Both causes of two programs' joined rows: they are put into a table lent for them.
fn refusal_in_table(
    kinds: &KindTable,
    first: &[i32],
    second: &[i32],
    table: &mut [i32],
) -> Result<(), Refusal>
    requires { Joinable first.now second.now × (length table.old ≡ 6 + length first.now + length second.now) }
    ensures { result ≡ rows_refusal (joined_rows first.now second.now) }
{
    put_joined(kinds, first, second, table);
    rows_refusal(kinds, table)
}

// The same in a table of its own, so that a join that is refused changes no word of the output.
fn refusal_by(kinds: &KindTable, first: &[i32], second: &[i32]) -> Result<(), Refusal>
    requires { Joinable first.now second.now }
    ensures { result ≡ rows_refusal (joined_rows first.now second.now) }
{
    let words = 6 + first.len() + second.len();
    let mut table = [0i32; 12288];
    refusal_in_table(kinds, first, second, &mut table[0..words])
}

// The same, with the table of kinds.
fn joined_refusal(first: &[i32], second: &[i32]) -> Result<(), Refusal>
    requires { Joinable first.now second.now }
    ensures { result ≡ rows_refusal (joined_rows first.now second.now) }
{
    let kinds = KindTable::new();
    refusal_by(&kinds, first, second)
}

// The causes of the join of two accepted programs: 16, 17, 9, 20.
fn own_refusal(
    header: &[i32],
    first: &[i32],
    second_header: &[i32],
    second: &[i32],
) -> Result<(), Refusal>
    requires { (refusal header.now first.now ≡ Ok tt) × (refusal second_header.now second.now ≡ Ok tt) }
    ensures { result ≡ own_refusal header.now first.now second_header.now second.now }
{
    if header != second_header {
        return Err(Refusal {
            cause: Cause::HeadersDiffer,
            place: 0,
        });
    }
    if 1 + first.len() / 6 + second.len() / 6 > 2048 {
        return Err(Refusal {
            cause: Cause::TooManyRows,
            place: 0,
        });
    }
    joined_refusal(first, second)
}

// Every cause but 10: the first's, then the second's, then those of the join. "The check takes causes in order".
pub fn join_refusal(
    header: &[i32],
    first: &[i32],
    second_header: &[i32],
    second: &[i32],
) -> Result<(), Refusal>
    ensures { result ≡ (refusal header.now first.now next refusal second_header.now second.now next own_refusal header.now first.now second_header.now second.now) }
{
    check_source::check(header, first)?;
    check_source::check(second_header, second)?;
    own_refusal(header, first, second_header, second)
}
