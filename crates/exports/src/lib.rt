// The library for C and Rust: the public entries as functions of C's calling convention. A slice is a pointer and a length in
// elements; every answer is numbers by value. No function has a `requires`.
#![tactic(auto)]

mod answers; // answers.rt: the numbers of each answer
pub mod flat_lists; // flat_lists.rt: writer and run of flat lists
pub mod joins; // joins.rt: the join
pub mod kernel_form; // kernel_form.rt: the translation
pub mod previews; // previews.rt: what a run would do
pub mod programs; // programs.rt: check, run, kernel check, kernel run, dispatcher run
pub mod texts; // texts.rt: reader and writer of both forms' texts

// What a caller gets: document 01's number of the cause, or 0 where there is none, and two values (specs/Numbers.antt).
#[repr(C)]
#[derive(Clone, Copy)]
pub struct Answer {
    pub cause: u32,
    pub first: usize,
    pub second: usize,
}

// What the caller of a preview gets: the numbers of a run, and how many store words would differ, 0 with a refusal.
#[repr(C)]
#[derive(Clone, Copy)]
pub struct PreviewAnswer {
    pub cause: u32,
    pub first: usize,
    pub second: usize,
    pub differing: usize,
}
