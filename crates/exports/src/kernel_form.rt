// The translation of source programs into kernel form.
ghost use Rattle.std.specs.Prelude.{◌≡◌};
ghost use Rattle.translation_fate.specs.KernelForms.{HasKernelForm};
ghost use Rattle.translator.specs.Translation.{translate_result};
ghost use Rattle.exports.specs.Numbers.{answer_of, WritesIfDone};

use super::Answer;

// Writes the kernel header and rows of a source program. The fourth promise is demands 2 and 3 and Change 14 about the kernel form, the
// last says them of the words that are written.
#[unsafe(no_mangle)]
pub extern "C" fn clight_translate(
    header: &[i32],
    rows: &[i32],
    kernel_header: &mut [i32],
    kernel_rows: &mut [i32],
) -> Answer
    ensures value { result ≡ answer_of (translate_result header.now rows.now kernel_header.old kernel_rows.old).numbers }
    ensures kernel_header_after { kernel_header.new ≡ (translate_result header.now rows.now kernel_header.old kernel_rows.old).header }
    ensures kernel_rows_after { kernel_rows.new ≡ (translate_result header.now rows.now kernel_header.old kernel_rows.old).rows }
    ensures has_kernel_form { HasKernelForm header.now rows.now }
    ensures writes_if_done { WritesIfDone header.now rows.now result kernel_header.new kernel_rows.new }
{
    clight::translate::translate(header, rows, kernel_header, kernel_rows).into()
}
