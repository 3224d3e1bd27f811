// The kernel on paper: definitions and theorems, in specs/, and what tells names. Other crates' promises cite them.
#![tactic(auto)]

ghost use Rattle.std.specs.Prelude.{◌≡◌, true};
ghost use Rattle.words.specs.Layout.{header_fits};
ghost use Rattle.words.specs.declared.Form.TheVariants.{Kernel};
ghost use Rattle.page.specs.Tables.{sizes_of};

use words::Form;
use words::layout::{declared, store_size};

// S and D of a kernel header: what the letter and the number of a name mean.
#[derive(Clone, Copy)]
pub struct Sizes {
    pub store: usize,
    pub declared: usize,
}

pub fn sizes_of(header: &[i32]) -> Sizes
    requires { header_fits Kernel header.now ≡ true }
    ensures { result ≡ sizes_of header.now }
{
    let store = store_size(Form::Kernel, header);
    Sizes {
        store: store,
        declared: declared(Form::Kernel, header),
    }
}
