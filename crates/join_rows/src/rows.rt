// The joined rows, written into a table: "the new block, both sets of definitions (the second's renumbered), the first's other rows, the second's,
// each in old order". One pass notes where each row stands, one writes each part.
ghost use Rattle.std.specs.Prelude.{◌≡◌, [], ◌+◌, ◌-◌, ◌*◌, ◌/◌, ◌<◌, ◌≤◌, length};
ghost use Rattle.words.specs.Word.{pick};
ghost use Rattle.words.specs.Over.{over};
ghost use Rattle.words.specs.OverLaws.{part as rest, back_in};
ghost use Rattle.check_grammar.specs.Grammar.{tabulate};
ghost use Rattle.check_structure.specs.Structured.{Tree};
ghost use Rattle.check_functions.specs.Passes.{Blank};
ghost use Rattle.join.specs.Join.{functions_of, first_item, before, placed_word, placed_rows, outer_block, joined_rows};
ghost use Rattle.join_rows.specs.NotedLaws.{StandsSecond};
ghost use Rattle.join_rows.specs.Parts.{Parts};
ghost use Rattle.join_rows.specs.Standings.{chosen_of, part, placement_of, Noted, Standings};

use super::parts::{NotedRows, front_of, is_of_definition, write_ranks};
use super::placed::Placed;
use super::{Front, Standing};
use check_grammar::kinds::KindTable;
use check_notes::{Note, write_notes};
use words_copying::put;

// A row of the part that is written: of definitions, or of the others.
fn is_chosen(definitions: bool, of_definition: bool) -> bool
    ensures { result ≡ chosen_of definitions of_definition }
{
    definitions == of_definition
}

impl Placed<'_> {
    // Writes the six words of a row.
    fn put_words(&self, row: usize, out: &mut [i32])
        requires { (row < length self.now.rows.now / 6) × (6 ≤ length out.old) }
        ensures { out.new ≡ over (tabulate (placed_word (placement_of self.now.standing) self.now.rows.now row) 0 6) out.old }
    {
        for field in 0..6 {
            out[field] = self.placed_word(row, field);
        }
    }

    // Writes a row if it is chosen; how many words.
    fn put_chosen(&self, row: usize, chosen: bool, out: &mut [i32]) -> usize
        requires { (row < length self.now.rows.now / 6) × (pick chosen 6 0 ≤ length out.old) }
        ensures { (out.new ≡ over (pick chosen (tabulate (placed_word (placement_of self.now.standing) self.now.rows.now row) 0 6) []) out.old) × (result ≡ pick chosen 6 0) }
    {
        if chosen {
            self.put_words(row, out);
            return 6;
        }
        0
    }

    // Writes the rows of one part of a program, in order; how many words.
    fn put_rows(&self, definitions: bool, out: &mut [i32]) -> usize
        requires { 6 * before (part definitions self.now.rows.now) (length self.now.rows.now / 6) ≤ length out.old }
        ensures { (out.new ≡ over (placed_rows (placement_of self.now.standing) (part definitions self.now.rows.now) self.now.rows.now (length self.now.rows.now / 6)) out.old) × (result ≡ 6 * before (part definitions self.now.rows.now) (length self.now.rows.now / 6)) }
    {
        let mut at: usize = 0;
        for row in 0..self.rows.len() / 6 {
            let chosen = is_chosen(definitions, is_of_definition(self.rows, self.around, row));
            at += self.put_chosen(row, chosen, &mut out[at..]);
        }
        at
    }

    // Writes one part of a program from this word on; where the next part begins.
    fn put_part(&self, definitions: bool, at: usize, out: &mut [i32]) -> usize
        requires { (at ≤ 65536) × (at + 6 * before (part definitions self.now.rows.now) (length self.now.rows.now / 6) ≤ length out.old) }
        ensures { (out.new ≡ back_in at out.old (over (placed_rows (placement_of self.now.standing) (part definitions self.now.rows.now) self.now.rows.now (length self.now.rows.now / 6)) (rest at out.old))) × (result ≡ at + 6 * before (part definitions self.now.rows.now) (length self.now.rows.now / 6)) }
    {
        at + self.put_rows(definitions, &mut out[at..])
    }
}

// Writes the new block, with its first item.
fn put_outer(item: usize, out: &mut [i32])
    requires { (item < 65536) × (6 ≤ length out.old) }
    ensures { out.new ≡ over (outer_block item) out.old }
{
    put(&[42, item as i32, 0, 0, 0, 0], out);
}

// Writes the new block and the four parts behind it.
fn put_parts(first: &Placed, second: &Placed, out: &mut [i32])
    requires { Standings first.now.rows.now second.now.rows.now first.now.standing second.now.standing × (6 + length first.now.rows.now + length second.now.rows.now ≤ length out.old) }
    ensures { out.new ≡ over (joined_rows first.now.rows.now second.now.rows.now) out.old }
{
    let item = first.front(first.kinds.link(first.rows, 0, 1));
    put_outer(item, out);
    let two = first.put_part(true, 6, out);
    let three = second.put_part(true, two, out);
    let four = first.put_part(false, three, out);
    second.put_part(false, four, out);
}

// The second's definitions stand behind the first's, and its other rows behind those of the first.
fn second_standing(
    first: &NotedRows,
    of_first: Front,
    second: &NotedRows,
    of_second: Front,
) -> Standing
    requires { (length first.now.rows.now / 6 ≤ 2048) × (length second.now.rows.now / 6 ≤ 2048) × (of_first.functions ≡ functions_of first.now.rows.now) × (of_second.item ≡ first_item second.now.rows.now) }
    ensures { StandsSecond first.now.rows.now second.now.rows.now first.now.definitions second.now.definitions result }
{
    let others = 1 + first.definitions + second.definitions;
    Standing {
        definitions: 1 + first.definitions,
        others: others + (first.rows.len() / 6 - first.definitions),
        functions: of_first.functions,
        behind: others,
        after: 0,
        item: of_second.item,
    }
}

// Writes the joined rows, with what is noted of both programs.
fn put_noted(kinds: &KindTable, first: &NotedRows, second: &NotedRows, out: &mut [i32])
    requires { Parts first.now.rows.now second.now.rows.now × (6 + length first.now.rows.now + length second.now.rows.now ≤ length out.old) }
    ensures { out.new ≡ over (joined_rows first.now.rows.now second.now.rows.now) out.old }
{
    let front_of_first = front_of(kinds, first.rows);
    let front_of_second = front_of(kinds, second.rows);
    let of_second = Placed {
        kinds: kinds,
        rows: second.rows,
        around: second.around,
        ranks: second.ranks,
        standing: second_standing(first, front_of_first, second, front_of_second),
    };
    let behind = of_second.front(kinds.link(second.rows, 0, 1));
    let of_first = Placed {
        kinds: kinds,
        rows: first.rows,
        around: first.around,
        ranks: first.ranks,
        standing: Standing {
            definitions: 1,
            others: of_second.standing.behind,
            functions: 0,
            behind: behind,
            after: of_second.standing.others,
            item: front_of_first.item,
        },
    };
    put_parts(&of_first, &of_second, out);
}

// Notes of a program's rows the function that each stands in, and how many rows of its part come before it; how many are rows of definitions.
fn note_rows(kinds: &KindTable, rows: &[i32], around: &mut [u16], ranks: &mut [u16]) -> usize
    requires { Tree rows.now × Blank rows.now around.old × Blank rows.now ranks.old }
    ensures { Noted rows.now around.new ranks.new result }
{
    write_notes(Note::Around(59), kinds, rows, around);
    write_ranks(rows, around, ranks)
}

// Writes the joined rows: what is noted of the rows comes first.
pub fn put_joined(kinds: &KindTable, first: &[i32], second: &[i32], out: &mut [i32])
    requires { Parts first.now second.now × (6 + length first.now + length second.now ≤ length out.old) }
    ensures { out.new ≡ over (joined_rows first.now second.now) out.old }
{
    let mut around = [0u16; 2048];
    let mut ranks = [0u16; 2048];
    let definitions = note_rows(kinds, first, &mut around, &mut ranks);
    let mut second_around = [0u16; 2048];
    let mut second_ranks = [0u16; 2048];
    let second_definitions = note_rows(kinds, second, &mut second_around, &mut second_ranks);
    put_noted(
        kinds,
        &NotedRows {
            rows: first,
            around: &around,
            ranks: &ranks,
            definitions: definitions,
        },
        &NotedRows {
            rows: second,
            around: &second_around,
            ranks: &second_ranks,
            definitions: second_definitions,
        },
        out,
    );
}

// The same, with the table of kinds.
pub fn write_joined(first: &[i32], second: &[i32], out: &mut [i32])
    requires { Parts first.now second.now × (6 + length first.now + length second.now ≤ length out.old) }
    ensures { out.new ≡ over (joined_rows first.now second.now) out.old }
{
    let kinds = KindTable::new();
    put_joined(&kinds, first, second, out);
}
