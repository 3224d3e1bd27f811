// The text of one rule, within the trial program's limits: its program, checked, or the refusal.
#![tactic(auto)]

pub mod limits; // limits.rt: the causes 1 and 2, with the trial program's limits
pub mod rule; // rule.rt: the length, the text's causes, the reading, the check
