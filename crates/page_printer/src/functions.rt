// The lines of arguments and parameters: one each, the last of which closes the parentheses. Counted, and printed behind those that are done.
ghost use Rattle.std.specs.Prelude.{◌≡◌, ◌<◌, ◌+◌, length};
ghost use Rattle.words.specs.Table.{row_count, number_at};
ghost use Rattle.language.specs.Decode.{expression_at, argument_list_at, parameter_list_at};
ghost use Rattle.language.specs.Calls.{argument_count};
ghost use Rattle.page.specs.Lines.{argument_lines, parameter_lines, definition_lines};
ghost use Rattle.page_line.specs.Reads.{Readable};
ghost use Rattle.page_line.specs.Printed.{Printed};
ghost use Rattle.page_printer.specs.Outlines.{is_parameter};
ghost use Rattle.page_printer.specs.Ready.{Ready};

use page::Sizes;
use page_line::LineAt;
use page_line::shapes_at::argument_at;
use page_line::whole::print_line;
use words::declarations::is_declaration;
use words::table::number_at;

// The arguments that a link leads to.
pub fn count_arguments(rows: &[i32], link: usize) -> usize
    requires { Readable rows.now × (link < row_count rows.now) × (argument_count (argument_list_at rows.now link) < 100000) }
    ensures { result ≡ argument_count (argument_list_at rows.now link) }
{
    let mut along = link;
    let mut count: usize = 0;
    loop {
        let found = argument_at(rows, along);
        let Some(_) = found else {
            return count;
        };
        count += 1;
        along = number_at(rows, along, 5);
    }
}

// A link that leads to a parameter.
fn is_parameter(rows: &[i32], link: usize) -> bool
    requires { Readable rows.now × (link < row_count rows.now) }
    ensures { result ≡ is_parameter rows.now link }
{
    if link == 0 {
        return false;
    }
    is_declaration(rows, link)
}

// The parameters that a link leads to.
pub fn count_parameters(rows: &[i32], link: usize) -> usize
    requires { Readable rows.now × (link < row_count rows.now) × (length (parameter_list_at rows.now link) < 100000) }
    ensures { result ≡ length (parameter_list_at rows.now link) }
{
    let mut along = link;
    let mut count: usize = 0;
    while is_parameter(rows, along) {
        count += 1;
        along = number_at(rows, along, 5);
    }
    count
}

// The lines of an argument, told by the row of its expression, and of those that the link behind it leads to.
pub fn print_arguments(
    sizes: Sizes,
    rows: &[i32],
    first: usize,
    link: usize,
    level: usize,
    done: usize,
    page: &mut [u8],
) -> usize
    requires { Ready sizes rows.now (argument_lines level (expression_at rows.now first) (argument_list_at rows.now link)) level done page.old × (first < row_count rows.now) × (link < row_count rows.now) }
    ensures { Printed sizes (argument_lines level (expression_at rows.now first) (argument_list_at rows.now link)) page.old done result page.new }
{
    let mut row = first;
    let mut along = link;
    let mut lines = done;
    loop {
        let found = argument_at(rows, along);
        let Some(following) = found else {
            return print_line(sizes, rows, LineAt::LastArgument(row), level, lines, page);
        };
        lines = print_line(sizes, rows, LineAt::Argument(row), level, lines, page);
        row = following;
        along = number_at(rows, along, 5);
    }
}

// The lines of a parameter, and of those behind it.
fn print_parameters(
    sizes: Sizes,
    rows: &[i32],
    first: usize,
    level: usize,
    done: usize,
    page: &mut [u8],
) -> usize
    requires { Ready sizes rows.now (parameter_lines level (number_at rows.now first 1) (parameter_list_at rows.now (number_at rows.now first 5))) level done page.old × (first < row_count rows.now) }
    ensures { Printed sizes (parameter_lines level (number_at rows.now first 1) (parameter_list_at rows.now (number_at rows.now first 5))) page.old done result page.new }
{
    let mut row = first;
    let mut lines = done;
    loop {
        let word = number_at(rows, row, 1);
        let next = number_at(rows, row, 5);
        if !is_parameter(rows, next) {
            return print_line(sizes, rows, LineAt::LastParameter(word), level, lines, page);
        }
        lines = print_line(sizes, rows, LineAt::Parameter(word), level, lines, page);
        row = next;
    }
}

// The lines of a definition before its block, by the link to its parameters.
pub fn print_definition(
    sizes: Sizes,
    rows: &[i32],
    number: usize,
    link: usize,
    level: usize,
    done: usize,
    page: &mut [u8],
) -> usize
    requires { Ready sizes rows.now (definition_lines level number (parameter_list_at rows.now link)) level done page.old × (link < row_count rows.now) }
    ensures { Printed sizes (definition_lines level number (parameter_list_at rows.now link)) page.old done result page.new }
{
    if !is_parameter(rows, link) {
        return print_line(
            sizes,
            rows,
            LineAt::OpensFunction(number),
            level,
            done,
            page,
        );
    }
    let opened = print_line(
        sizes,
        rows,
        LineAt::OpensParameters(number),
        level,
        done,
        page,
    );
    print_parameters(sizes, rows, link, level, opened, page)
}
