// The check of flat lists.
#![tactic(auto)]

pub mod causes; // causes.rt: the causes that one line can break: 3, 4 and 6
pub mod kinds; // kinds.rt: the table of kinds

ghost use Rattle.std.specs.Prelude.{◌≡◌, ◌%◌, length};
ghost use Rattle.flat.specs.Refusal.{line_causes, refusal as refusal_of};

use causes::{is_jump_outside, is_number_outside, is_unknown};
use check_fields::Bounds;
use check_fields::fields::bounds_of;
use check_structure::causes::at;
use words::layout::header_fits;
use words::{Cause, Form, Refusal};

// Causes 3, 4 and 6, in order.
fn line_causes(bounds: Bounds, list: &[i32]) -> Result<(), Refusal>
    ensures { result ≡ line_causes bounds list.now }
{
    let lines = list.len() / 5;
    at(
        Cause::Foreign,
        (0..lines).find(|line| is_unknown(list, *line)),
    )?;
    at(
        Cause::Mislinked,
        (0..lines).find(|line| is_jump_outside(list, *line)),
    )?;
    at(
        Cause::NumberOutside,
        (0..lines).find(|line| is_number_outside(bounds, list, *line)),
    )
}

// The check of a flat list: it accepts the legal lists and no others.
pub fn check(header: &[i32], list: &[i32]) -> Result<(), Refusal>
    ensures { result ≡ refusal_of header.now list.now }
{
    if !header_fits(Form::Kernel, header) {
        return Err(Refusal {
            cause: Cause::Header,
            place: 0,
        });
    }
    if list.len() % 5 != 0 {
        return Err(Refusal {
            cause: Cause::RowCount,
            place: 0,
        });
    }
    line_causes(bounds_of(Form::Kernel, header), list)
}
