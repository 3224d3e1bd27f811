// What a translation is besides sharing its program's fate: a kernel program's tree, with names, depth and size inside their bounds, and
// blind to its temporaries. Laws, in specs/, which other crates' proofs cite.
#![tactic(auto)]
