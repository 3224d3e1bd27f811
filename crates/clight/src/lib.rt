// The public entries. None has a `requires`: for all words that it is lent, each gives its result or the one refusal that document
// 01's table of causes names, and a refusal leaves everything lent as it was. The work is done in the crates below.
#![tactic(auto)]

pub mod dispatcher; // dispatcher.rt: the kernel run that a dispatcher sees
pub mod flat_lists; // flat_lists.rt: writer, check and run of flat lists
pub mod joins; // joins.rt: two source programs as one
pub mod pages; // pages.rt: the kernel on paper
pub mod previews; // previews.rt: what a run would do
pub mod runs; // runs.rt: check, run, kernel check, kernel run
pub mod texts; // texts.rt: reader and writer of both forms' texts
pub mod translate; // translate.rt: the translation
