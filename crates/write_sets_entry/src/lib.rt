// What a source program can write, for any words: the check's refusal, or the sets of an accepted program.
#![tactic(auto)]

ghost use Rattle.std.specs.Prelude.{◌≡◌};
ghost use Rattle.words.specs.declared.Form.TheVariants.{Source};
ghost use Rattle.language_programs.specs.Program.{source_size, resolved_rows};
ghost use Rattle.write_sets_programs.specs.ProgramWrites.{written, WritesAre};
ghost use Rattle.check_source.specs.Refusal.{refusal};
ghost use Rattle.write_sets_entry.specs.Told.{Told, count_of};

use accepted_rows::resolve_accepted;
use words::layout::store_size;
use words::{Form, Refusal};
use write_sets_programs::Writes;
use write_sets_programs::program::program_writes;

// What an accepted program can write: read off its resolved table, which stands in this frame alone.
fn accepted_writes(header: &[i32], rows: &[i32]) -> Writes
    requires { refusal header.now rows.now ≡ (Ok tt) }
    ensures { WritesAre (source_size header.now) result (resolved_rows Source header.now rows.now) }
{
    let store = store_size(Form::Source, header);
    let words = rows.len();
    let mut resolved = [0i32; 12288];
    resolve_accepted(header, rows, &mut resolved);
    program_writes(store, &resolved[0..words])
}

// How many variables and declared words it can write: the ones in the five words.
pub fn accepted_count(header: &[i32], rows: &[i32]) -> u32
    requires { refusal header.now rows.now ≡ (Ok tt) }
    ensures { result ≡ written (source_size header.now) (resolved_rows Source header.now rows.now) }
{
    accepted_writes(header, rows).variables.count()
}

// The variables, the declared words and the arrays that the program can write.
pub fn writes_of(header: &[i32], rows: &[i32]) -> Result<Writes, Refusal>
    ensures { Told header.now rows.now (refusal header.now rows.now) result }
{
    let verdict = check_source::check(header, rows);
    match verdict {
        Ok(()) => Ok(accepted_writes(header, rows)),
        Err(refusal) => Err(refusal),
    }
}

// How many variables and declared words it can write; none, where the check refuses it.
pub fn count_of(header: &[i32], rows: &[i32]) -> u32
    ensures { result ≡ count_of (refusal header.now rows.now) header.now rows.now }
{
    let verdict = check_source::check(header, rows);
    match verdict {
        Ok(()) => accepted_count(header, rows),
        Err(_) => 0,
    }
}
