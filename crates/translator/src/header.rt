// The writer of the kernel header.
ghost use Rattle.std.specs.Prelude.{◌≡◌, true, ◌+◌, ◌≤◌, length};
ghost use Rattle.words.specs.Layout.{header_fits, layout_of};
ghost use Rattle.words.specs.declared.Form.TheVariants.{Source};
ghost use Rattle.translation.specs.Translate.{kernel_header};
ghost use Rattle.words.specs.Over.{over};

use words_copying::put;

// Writes V, D, T and the array lengths.
pub fn write_header(header: &[i32], declared: usize, temporaries: usize, out: &mut [i32])
    requires { (header_fits Source header.now ≡ true) × (declared ≤ 64) × (temporaries ≤ 8192) × (length header.now + 2 ≤ length out.old) }
    ensures { out.new ≡ over (kernel_header (layout_of Source header.now) declared temporaries) out.old }
{
    let leading = [header[0], declared as i32, temporaries as i32];
    put(&leading, out);
    put(&header[1..], &mut out[3..]);
}
