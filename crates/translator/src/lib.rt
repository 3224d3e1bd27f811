// The translator: writes the kernel header and the kernel rows of a source program that the check accepts.
#![tactic(auto)]

ghost use Rattle.std.specs.Prelude.{◌≡◌};
ghost use Rattle.words.specs.declared.Form.TheVariants.{Source};
ghost use Rattle.language_programs.specs.Program.{resolved_rows};
ghost use Rattle.check_source.specs.Refusal.{refusal as source_refusal};
ghost use Rattle.measures_table.specs.Measures.{Measured};
ghost use Rattle.translation_fate.specs.KernelForms.{HasKernelForm};
ghost use Rattle.translator.specs.Translation.{answer_and_tables, translate_after, translate_result, WritesKernelForm};

use accepted_rows::resolve_accepted;
use header::write_header;
use measures::pass::measure;
use measures::program::measured_program;
use words::declarations::declaration_count;
use words::layout::store_size;
use words::{Cause, Form, Refusal};
use writers_programs::program::write_program;

pub mod header; // header.rt: the kernel header

// Writes both tables of an accepted program, whose resolved table `table` measures: cause 10, before the first word is written.
fn write_measured(
    header: &[i32],
    rows: &[i32],
    resolved: &[i32],
    table: &[usize],
    kernel_header: &mut [i32],
    kernel_rows: &mut [i32],
) -> Result<(usize, usize), Refusal>
    requires { (source_refusal header.now rows.now ≡ (Ok tt)) × (resolved.now ≡ resolved_rows Source header.now rows.now) × Measured resolved.now table.now }
    ensures { answer_and_tables result kernel_header.new kernel_rows.new ≡ translate_after (Ok tt) header.now rows.now kernel_header.old kernel_rows.old }
{
    let program = measured_program(resolved, table);
    let header_words = header.len() + 2;
    if header_words > kernel_header.len() {
        return Err(Refusal {
            cause: Cause::NoRoom,
            place: 0,
        });
    }
    let row_words = 6 * (1 + program.rows);
    if row_words > kernel_rows.len() {
        return Err(Refusal {
            cause: Cause::NoRoom,
            place: 0,
        });
    }
    let declared = declaration_count(rows);
    write_header(header, declared, program.levels, kernel_header);
    let first = store_size(Form::Source, header) + declared;
    write_program(
        resolved,
        table,
        first,
        program.rows,
        program.levels,
        kernel_rows,
    );
    Ok((header_words, row_words))
}

// Measures and writes an accepted program from its resolved table.
fn translate_table(
    header: &[i32],
    rows: &[i32],
    resolved: &[i32],
    kernel_header: &mut [i32],
    kernel_rows: &mut [i32],
) -> Result<(usize, usize), Refusal>
    requires { (source_refusal header.now rows.now ≡ (Ok tt)) × (resolved.now ≡ resolved_rows Source header.now rows.now) }
    ensures { answer_and_tables result kernel_header.new kernel_rows.new ≡ translate_after (Ok tt) header.now rows.now kernel_header.old kernel_rows.old }
{
    let store = store_size(Form::Source, header);
    let mut table = [0usize; 38912];
    measure(store, resolved, &mut table);
    write_measured(header, rows, resolved, &table, kernel_header, kernel_rows)
}

// The same of its rows: the resolved table stands in this frame alone.
fn translate_resolved(
    header: &[i32],
    rows: &[i32],
    kernel_header: &mut [i32],
    kernel_rows: &mut [i32],
) -> Result<(usize, usize), Refusal>
    requires { source_refusal header.now rows.now ≡ (Ok tt) }
    ensures { answer_and_tables result kernel_header.new kernel_rows.new ≡ translate_after (Ok tt) header.now rows.now kernel_header.old kernel_rows.old }
{
    let words = rows.len();
    let mut resolved = [0i32; 12288];
    resolve_accepted(header, rows, &mut resolved);
    translate_table(
        header,
        rows,
        &resolved[0..words],
        kernel_header,
        kernel_rows,
    )
}

// Translates an accepted program, for a caller that has the check's answer; nothing is checked again. Rows without declarations are their
// own resolved table.
pub fn translate_accepted(
    header: &[i32],
    rows: &[i32],
    kernel_header: &mut [i32],
    kernel_rows: &mut [i32],
) -> Result<(usize, usize), Refusal>
    requires { source_refusal header.now rows.now ≡ (Ok tt) }
    ensures kernel_rows_after { answer_and_tables result kernel_header.new kernel_rows.new ≡ translate_result header.now rows.now kernel_header.old kernel_rows.old }
    ensures has_kernel_form { HasKernelForm header.now rows.now }
    ensures writes_kernel_form { WritesKernelForm header.now rows.now result kernel_header.new kernel_rows.new }
{
    if declaration_count(rows) == 0 {
        return translate_table(header, rows, rows, kernel_header, kernel_rows);
    }
    translate_resolved(header, rows, kernel_header, kernel_rows)
}

// Translates a source program. The first promise says what is answered and what stands in both tables after it, refusals too; the
// second is demands 2 and 3 and Change 14 about the kernel form that it cites; the third says them of the words that stand in the tables.
pub fn translate(
    header: &[i32],
    rows: &[i32],
    kernel_header: &mut [i32],
    kernel_rows: &mut [i32],
) -> Result<(usize, usize), Refusal>
    ensures kernel_rows_after { answer_and_tables result kernel_header.new kernel_rows.new ≡ translate_result header.now rows.now kernel_header.old kernel_rows.old }
    ensures has_kernel_form { HasKernelForm header.now rows.now }
    ensures writes_kernel_form { WritesKernelForm header.now rows.now result kernel_header.new kernel_rows.new }
{
    check_source::check(header, rows)?;
    translate_accepted(header, rows, kernel_header, kernel_rows)
}
