// Checks a table, and writes what the check answers: accepted, or refused with its number and place.
use std::io;
use words::{Form, Refusal};

fn write(rt: &impl Print, verdict: Result<(), Refusal>) -> io::Result<()> {
    match verdict {
        Ok(()) => println!(rt; "accepted"),
        Err(refusal) => println!(rt; "refused {} {}", refusal.cause.number(), refusal.place),
    }
}

pub fn check_table(rt: &impl Print, form: Form, header: &[i32], rows: &[i32]) -> io::Result<()> {
    match form {
        Form::Source => write(rt, check_source::check(header, rows)),
        Form::Kernel => write(rt, check_kernel::check(header, rows)),
    }
}
