// Lists and tests: the definitions and the laws that several crates cite. It has no code.
#![tactic(auto)]
