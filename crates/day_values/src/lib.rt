// A day for each value of its setting, and the line that is printed for it.
#![tactic(auto)]

pub mod day; // day.rt: the day of one value, and its line
pub mod values; // values.rt: the lines of all values, lowest first
