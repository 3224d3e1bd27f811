// The header's limits, and the sizes it gives.
ghost use Rattle.std.specs.Prelude.{◌≡◌, true, ◌&&◌, map, ◌+◌, ◌*◌, ◌<◌, ◌≤◌, leb, length};
ghost use Rattle.words.specs.Word.{natural as natural_of};
ghost use Rattle.words.specs.Layout.{leading as leading_of, row_limit, kernel_number, declared_of, temporaries_of, layout_of, sum, store_size, header_store, store_words, all_within, header_fits, count_fits};

use super::Form;
use super::declarations::declaration_count;
use super::table::natural;

// How many words the header has before the array lengths.
pub fn leading(form: Form) -> usize
    ensures { result ≡ leading_of form }
{
    match form {
        Form::Source => 1,
        Form::Kernel => 3,
    }
}

pub fn row_limit(form: Form) -> usize
    ensures { result ≡ row_limit form }
{
    match form {
        Form::Source => 2048,
        Form::Kernel => 40980,
    }
}

// A number of a kernel's header, by its place before the array lengths; 0 in the source form.
fn kernel_number(form: Form, header: &[i32], place: usize) -> usize
    requires { (leading_of form ≤ length header.now) × (place < 3) }
    ensures { result ≡ kernel_number form header.now place }
{
    match form {
        Form::Source => 0,
        Form::Kernel => natural(header[place]),
    }
}

// D, or 0 in the source form, whose rows say it.
pub fn declared(form: Form, header: &[i32]) -> usize
    requires { leading_of form ≤ length header.now }
    ensures { result ≡ declared_of form header.now }
{
    kernel_number(form, header, 1)
}

// T, or 0 in the source form.
pub fn temporaries(form: Form, header: &[i32]) -> usize
    requires { leading_of form ≤ length header.now }
    ensures { result ≡ temporaries_of form header.now }
{
    kernel_number(form, header, 2)
}

// The array lengths are within their limits, and with the variables the store is.
fn lengths_fit(lengths: &[i32], variables: usize) -> bool
    requires { (length lengths.now ≤ 32) × (variables ≤ 256) }
    ensures { result ≡ (all_within 4096 (map natural_of lengths.now) && leb (variables + sum (map natural_of lengths.now)) 8192) }
{
    let mut total = variables;
    for length in lengths {
        let words = natural(*length);
        if words < 1 {
            return false;
        }
        if words > 4096 {
            return false;
        }
        total += words;
    }
    total <= 8192
}

// Cause 1: the header is within its limits.
pub fn header_fits(form: Form, header: &[i32]) -> bool
    ensures { result ≡ header_fits form header.now }
{
    let first = leading(form);
    let n = header.len();
    if n < first {
        return false;
    }
    if n > first + 32 {
        return false;
    }
    let variables = natural(header[0]);
    if variables > 256 {
        return false;
    }
    if declared(form, header) > 64 {
        return false;
    }
    if temporaries(form, header) > 8192 {
        return false;
    }
    lengths_fit(&header[first..], variables)
}

// Cause 2: a table of so many words has as many rows as its form may.
pub fn count_fits(form: Form, words: usize) -> bool
    ensures { result ≡ count_fits form words }
{
    if words < 6 {
        return false;
    }
    if words > 6 * row_limit(form) {
        return false;
    }
    words % 6 == 0
}

// The sum of the array lengths.
fn sum_of(lengths: &[i32]) -> usize
    requires { sum (map natural_of lengths.now) ≤ 8192 }
    ensures { result ≡ sum (map natural_of lengths.now) }
{
    let mut total: usize = 0;
    for length in lengths {
        total += natural(*length);
    }
    total
}

// S.
pub fn store_size(form: Form, header: &[i32]) -> usize
    requires { header_fits form header.now ≡ true }
    ensures { result ≡ store_size (layout_of form header.now) }
{
    let first = leading(form);
    let total = sum_of(&header[first..]);
    natural(header[0]) + total
}

// The store words that a header gives: S (source) or S+D+T (kernel).
pub fn header_store(form: Form, header: &[i32]) -> usize
    requires { header_fits form header.now ≡ true }
    ensures { result ≡ header_store form header.now }
{
    let behind = declared(form, header) + temporaries(form, header);
    store_size(form, header) + behind
}

// The words that a run's store has: with a word for each declaration in the source form.
pub fn store_words(form: Form, header: &[i32], rows: &[i32]) -> usize
    requires { header_fits form header.now ≡ true }
    ensures { result ≡ store_words form header.now rows.now }
{
    match form {
        Form::Source => header_store(form, header) + declaration_count(rows),
        Form::Kernel => header_store(form, header),
    }
}
