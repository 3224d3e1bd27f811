// The translation: source trees to kernel trees, and what is proved of it. Definitions, in specs/, which other crates' promises cite.
#![tactic(auto)]

// The use of an expression's value, by the text around it: nobody uses it; something is worked out with it; or an assignment stores it in a
// variable.
#[derive(Clone, Copy)]
pub enum Use {
    Dropped,
    Wanted,
    Stored(usize),
}
