// The names that a header gives.
ghost use Rattle.std.specs.Prelude.{◌≡◌, true};
ghost use Rattle.words.specs.Layout.{header_fits};
ghost use Rattle.words.specs.declared.Form.TheVariants.{Kernel};
ghost use Rattle.page_blocks.specs.Scans.{names_of};

use check_fields::fields::bounds_of;
use page_words::Names;
use words::Form;
use words::layout::{declared, temporaries};

pub fn names_of(header: &[i32]) -> Names
    requires { header_fits Kernel header.now ≡ true }
    ensures { result ≡ names_of header.now }
{
    let bounds = bounds_of(Form::Kernel, header);
    let inside = declared(Form::Kernel, header);
    let kept = temporaries(Form::Kernel, header);
    Names {
        variables: bounds.variables as u32,
        declared: inside as u32,
        temporaries: kept as u32,
        arrays: bounds.arrays as u32,
    }
}
