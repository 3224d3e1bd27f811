// What the verbs without a budget print. A writer puts its bytes at the start of `out`, and answers how many they are.
#![tactic(auto)]

pub mod joins; // joins.rt: what `join` prints
pub mod questions; // questions.rt: what is printed for a question about one text: the checks, `writes`, `page`, `flatten` and `flat-check`
pub mod translations; // translations.rt: what `translate` and `translate-page` print, and the page of a kernel program
