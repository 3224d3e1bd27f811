// The tables from which the flat list of a legal kernel program is written: how many lines the list from each row on has, at which line each
// row stands, and at which line each label does. 16 bits hold each number, since there are fewer lines than rows.
#![tactic(auto)]

pub mod places; // places.rt: the lines, handed along the links from the first row to the last
pub mod sizes; // sizes.rt: the sizes, from the last row to the first
