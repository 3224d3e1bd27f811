// A day's input as bytes: where its rule ends, the numbers of its lines, its setting, and the first line that is turned away.
#![tactic(auto)]

pub mod input; // input.rt: the rule's bytes, the place behind them, how many lines there are
pub mod lines; // lines.rt: the numbers of a line, and the first line that a test turns away
pub mod plan; // plan.rt: the setting and the day lines, or why they are turned away
pub mod setting; // setting.rt: the variable that is set, and its values
