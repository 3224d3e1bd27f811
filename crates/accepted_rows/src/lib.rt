// The rows that a run enters and a translation reads: the resolved table of an accepted source program.
#![tactic(auto)]

ghost use Rattle.std.specs.Prelude.{◌≡◌, ◌≤◌, length};
ghost use Rattle.words.specs.Over.{over};
ghost use Rattle.words.specs.declared.Form.TheVariants.{Source};
ghost use Rattle.language_programs.specs.Program.{resolved_rows};
ghost use Rattle.check_source.specs.Refusal.{refusal};

use names_resolver::resolve;
use words::Form;
use words::layout::store_size;

// Writes them from the start of a table that has room for the rows: 12,288 words have.
pub fn resolve_accepted(header: &[i32], rows: &[i32], out: &mut [i32])
    requires { (refusal header.now rows.now ≡ Ok tt) × (length rows.now ≤ length out.old) }
    ensures { out.new ≡ over (resolved_rows Source header.now rows.now) out.old }
{
    let size = store_size(Form::Source, header);
    resolve(size, rows, out)
}
