// The writers of blocks and lists, and of the items of a list.
ghost use Rattle.std.specs.Prelude.{◌≡◌, length};
ghost use Rattle.language_emission.specs.Emission.{emit_items};
ghost use Rattle.language.specs.Decode.{items_at, list_at};
ghost use Rattle.language.specs.Trees.{block, none, ◌then◌};
ghost use Rattle.writers_steps.specs.Asks.{Writes};
ghost use Rattle.translation.specs.Translate.{items_code};
ghost use Rattle.measures_table.specs.Parts.{called_in};
ghost use Rattle.words.specs.Over.{over};
ghost use Rattle.writers.specs.Asks.{ListAsks, BlockAsks, ItemAsks};
ghost use Rattle.writers.specs.Code.{exits_of};
ghost use Rattle.writers.specs.Items.{item_code};

use super::StatementPosition;
use super::lists::{item_labels, item_size, list_size};
use super::statements::write_statement;
use language_shapes::Item;
use language_shapes::rows::item_at;
use words::table::number_at;
use writers_rows::control::{put_block, put_label};
use writers_rows::rows::{behind, more};
use writers_steps::WriteSource;

// A block of the list at a link.
#[cycle(write_statements)]
pub fn write_block(
    source: &WriteSource<'_>,
    list: usize,
    at: StatementPosition,
    follows: bool,
    out: &mut [i32],
)
    requires { Writes source.now × BlockAsks source.now.rows.now list at.exits at.label at.base (length out.old) }
    ensures { out.new ≡ over (emit_items follows (block (items_code (called_in source.now.rows.now) source.now.store (list_at source.now.rows.now list) (exits_of at.exits) at.label) then none) at.base) out.old }
{
    let n = list_size(source, list);
    put_block(
        behind(more(false, n), at.base + 1),
        behind(follows, at.base + 1 + n),
        out,
    );
    write_list(
        source,
        list,
        StatementPosition {
            base: at.base + 1,
            ..at
        },
        false,
        &mut out[6..],
    );
}

// The code of the list at a link. Its labels begin at `label`.
#[cycle(write_statements)]
pub fn write_list(
    source: &WriteSource<'_>,
    list: usize,
    at: StatementPosition,
    follows: bool,
    out: &mut [i32],
)
    requires { Writes source.now × ListAsks source.now.rows.now list at.exits at.label at.base (length out.old) }
    ensures { out.new ≡ over (emit_items follows (items_code (called_in source.now.rows.now) source.now.store (list_at source.now.rows.now list) (exits_of at.exits) at.label) at.base) out.old }
{
    let mut item = list;
    let mut from = at.label;
    let mut n: usize = 0;
    while item != 0 {
        let next = number_at(source.rows, item, 5);
        let then = more(follows, list_size(source, next));
        write_item(
            source,
            item,
            StatementPosition {
                label: from,
                base: at.base + n,
                ..at
            },
            then,
            &mut out[6 * n..],
        );
        n += item_size(source, item);
        from += item_labels(source, item);
        item = next;
    }
}

// The item at a row: a statement's code, or a mark's label; a definition brings nothing where it stands.
#[cycle(write_statements)]
fn write_item(
    source: &WriteSource<'_>,
    row: usize,
    at: StatementPosition,
    follows: bool,
    out: &mut [i32],
)
    requires { Writes source.now × ItemAsks source.now.rows.now row at.exits at.label at.base (length out.old) }
    ensures { out.new ≡ over (emit_items follows (item_code (called_in source.now.rows.now) source.now.store (items_at source.now.rows.now row) (exits_of at.exits) at.label) at.base) out.old }
{
    let item = item_at(source.rows, row);
    match item {
        Item::Statement => write_statement(source, row, at, follows, out),
        Item::Mark(_) => put_label(at.label, at.base, follows, out),
        Item::Definition(_, _, _) => {}
    }
}
