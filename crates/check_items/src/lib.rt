// The items of lists: what a row hands along its links to tell them.
#![tactic(auto)]

ghost use Rattle.std.specs.Prelude.{◌≡◌, ◌*◌, ◌<◌, eqb, length};
ghost use Rattle.words.specs.Word.{pick};
ghost use Rattle.check_items.specs.Items.{item_of};

use check_structure::row_number::narrow;
use words::table::number_at;

// An item of the list that field `part` of a row of this kind begins: the first, or the next of one.
pub fn hand_item(
    rows: &[i32],
    kind: usize,
    part: usize,
    owner: usize,
    field: usize,
    own: u16,
) -> u16
    requires { 6 * owner < length rows.now }
    ensures { result ≡ item_of rows.now kind part owner field own }
{
    if field == 5 {
        return own;
    }
    if number_at(rows, owner, 0) == kind {
        if field == part {
            return 1;
        }
        return 0;
    }
    0
}

// The nearest item of a sort before the next item of a list; `sorted` says whether the owner is of the sort.
pub fn hand_earlier(sorted: bool, owner: usize, field: usize, own: u16) -> u16
    requires { owner < 65536 }
    ensures { result ≡ pick (eqb field 5) (pick sorted owner own) 0 }
{
    if field == 5 {
        if sorted {
            return narrow(owner);
        }
        return own;
    }
    0
}
