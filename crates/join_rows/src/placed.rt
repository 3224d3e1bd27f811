// The words of a row at its new place: "the second's renumbered", links led along, the list of the new block made of definitions and both blocks.
ghost use Rattle.std.specs.Prelude.{◌≡◌, ◌&&◌, ◌/◌, ◌<◌, eqb, length};
ghost use Rattle.words.specs.Word.{pick};
ghost use Rattle.join.specs.Join.{place_of, front_of, placed_link, placed_word};
ghost use Rattle.join_rows.specs.Standings.{placement_of, Ready};

use super::Standing;
use super::parts::is_of_definition;
use check_grammar::kinds::KindTable;
use check_grammar::{FUNCTION, is_link};
use check_structure::row_number::wide;
use words::table::{number_at, word_at};
use words_roles::is_definition;

// A program in a join: its rows, with the function that each stands in and how many rows of its part come before it, and where the program
// stands.
#[derive(Clone, Copy)]
pub struct Placed<'a> {
    pub kinds: &'a KindTable,
    pub rows: &'a [i32],
    pub around: &'a [u16],
    pub ranks: &'a [u16],
    pub standing: Standing,
    ghost ready: { Ready rows.now around.now ranks.now standing },
}

// Field a of row 0.
fn is_first(row: usize, field: usize) -> bool
    ensures { result ≡ (eqb row 0 && eqb field 1) }
{
    if row == 0 {
        return field == 1;
    }
    false
}

impl Placed<'_> {
    // The new number of a row.
    fn place(&self, row: usize) -> usize
        requires { row < length self.now.rows.now / 6 }
        ensures { (result ≡ place_of (placement_of self.now.standing) self.now.rows.now row) × (result < 65536) }
    {
        let rank = wide(self.ranks[row]);
        if is_of_definition(self.rows, self.around, row) {
            return self.standing.definitions + rank;
        }
        self.standing.others + rank
    }

    // A link that is led along; 0 stays absent.
    fn led(&self, to: usize) -> usize
        requires { to < length self.now.rows.now / 6 }
        ensures { (result ≡ pick (eqb to 0) 0 (place_of (placement_of self.now.standing) self.now.rows.now to)) × (result < 65536) }
    {
        if to == 0 {
            return 0;
        }
        self.place(to)
    }

    // From this item on the list of the new block: a definition, or what stands behind the program's definitions.
    pub fn front(&self, item: usize) -> usize
        requires { item < length self.now.rows.now / 6 }
        ensures { (result ≡ front_of (placement_of self.now.standing) self.now.rows.now item) × (result < 65536) }
    {
        if is_definition(self.rows, item) {
            return self.place(item);
        }
        self.standing.behind
    }

    // The next of a row.
    fn next_link(&self, row: usize) -> usize
        requires { row < length self.now.rows.now / 6 }
        ensures { (result ≡ placed_link (placement_of self.now.standing) self.now.rows.now row 5) × (result < 65536) }
    {
        let to = self.kinds.link(self.rows, row, 5);
        if is_definition(self.rows, row) {
            return self.front(to);
        }
        if row == 0 {
            return self.standing.after;
        }
        self.led(to)
    }

    // A part of a row: the old block begins behind the definitions.
    fn part_link(&self, row: usize, field: usize) -> usize
        requires { (row < length self.now.rows.now / 6) × (field < 5) }
        ensures { (result ≡ placed_link (placement_of self.now.standing) self.now.rows.now row field) × (result < 65536) }
    {
        if is_first(row, field) {
            return self.led(self.standing.item);
        }
        let to = self.kinds.link(self.rows, row, field);
        self.led(to)
    }

    // The row that a field links.
    fn placed_link(&self, row: usize, field: usize) -> usize
        requires { (row < length self.now.rows.now / 6) × (field < 6) }
        ensures { (result ≡ placed_link (placement_of self.now.standing) self.now.rows.now row field) × (result < 65536) }
    {
        if field == 5 {
            return self.next_link(row);
        }
        self.part_link(row, field)
    }

    // A word of a row.
    pub fn placed_word(&self, row: usize, field: usize) -> i32
        requires { (row < length self.now.rows.now / 6) × (field < 6) }
        ensures { result ≡ placed_word (placement_of self.now.standing) self.now.rows.now row field }
    {
        let sort = self.kinds.sort_at(self.rows, row, field);
        if is_link(sort) {
            return self.placed_link(row, field) as i32;
        }
        if sort == FUNCTION {
            return (self.standing.functions + number_at(self.rows, row, field)) as i32;
        }
        word_at(self.rows, row, field)
    }
}
