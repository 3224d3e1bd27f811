// The blocks of a page's lines, and how a page is scanned from its first line on.
#![tactic(auto)]
