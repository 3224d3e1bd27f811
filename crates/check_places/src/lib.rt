// Cause 7: break, continue, case or default out of place; and the notes of each row that a pass along the links writes for causes 7 and 8.
#![tactic(auto)]

pub mod notes; // notes.rt: the pass
pub mod places; // places.rt: cause 7
