// The measures of expressions: what an expression's own row brings, what holds its value, and whether that value is copied.
#![tactic(auto)]

pub mod copies; // copies.rt: which values are copied
pub mod expressions; // expressions.rt: the measures of an expression
pub mod holders; // holders.rt: what holds a value
pub mod parts; // parts.rt: what an expression's own row brings
pub mod passed; // passed.rt: the measures of a call's arguments
