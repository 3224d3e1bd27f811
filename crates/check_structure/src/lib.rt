// What the checks of both forms share: the causes 1 to 6 and 9.
#![tactic(auto)]

pub mod causes; // causes.rt: the lowest row that breaks a cause, and the causes 1 to 6 in order
pub mod depth; // depth.rt: cause 9, by a walk down the links
pub mod links; // links.rt: how often each row is linked, and cause 5
pub mod row_number; // row_number.rt: a row number in 16 bits, and back
