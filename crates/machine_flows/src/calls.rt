// The rows of arguments and parameters.
ghost use Rattle.std.specs.Prelude.{◌≡◌, length, set};
ghost use Rattle.words.specs.Table.{number_at};
ghost use Rattle.language.specs.Decode.{argument_list_at};
ghost use Rattle.language.specs.Calls.{argument_count};
ghost use Rattle.machine_flows.specs.Calls.{ArgumentsAt, ParameterAt, row_behind};
ghost use Rattle.machine_flows.specs.Lists.{InTable};

use machine_operations::operations::link_at;

// How many arguments there are from a row on.
pub fn argument_count(rows: &[i32], first: usize) -> usize
    requires { ArgumentsAt rows.now first }
    ensures { result ≡ argument_count (argument_list_at rows.now first) }
{
    let mut at = first;
    let mut count: usize = 0;
    while at != 0 {
        at = link_at(rows, at, 5);
        count += 1;
    }
    count
}

// The row so many links behind a first one: arguments are worked out from the last to the first, and links lead forward only.
pub fn row_behind(rows: &[i32], first: usize, links: usize) -> usize
    requires { InTable rows.now first }
    ensures { result ≡ row_behind rows.now first links }
{
    let mut at = first;
    for _link in 0..links {
        at = link_at(rows, at, 5);
    }
    at
}

// The word of the parameter at a row gets its value.
pub fn store_parameter(rows: &[i32], row: usize, value: i32, store: &mut [i32])
    requires { ParameterAt rows.now row (length store.old) }
    ensures { store.new ≡ set store.old (number_at rows.now row 1) value }
{
    let word = link_at(rows, row, 1);
    store[word] = value;
}
