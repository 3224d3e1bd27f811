// The translation of source programs into kernel form.
ghost use Rattle.std.specs.Prelude.{◌≡◌};
ghost use Rattle.translation_fate.specs.KernelForms.{HasKernelForm};
ghost use Rattle.translator.specs.Translation.{answer_and_tables, translate_result, WritesKernelForm};

use words::Refusal;

// Writes the kernel header and rows of a source program, and answers how many words each has. The second promise is demands 2 and 3
// and Change 14, for every accepted program, every store and every content of the temporaries; the third says them of the words that were
// written.
pub fn translate(
    header: &[i32],
    rows: &[i32],
    kernel_header: &mut [i32],
    kernel_rows: &mut [i32],
) -> Result<(usize, usize), Refusal>
    ensures kernel_rows_after { answer_and_tables result kernel_header.new kernel_rows.new ≡ translate_result header.now rows.now kernel_header.old kernel_rows.old }
    ensures has_kernel_form { HasKernelForm header.now rows.now }
    ensures writes_kernel_form { WritesKernelForm header.now rows.now result kernel_header.new kernel_rows.new }
{
    translator::translate(header, rows, kernel_header, kernel_rows)
}
