//! Facts of the console: what wrong rules of derivations and of a run would not give, and what words of the command line, lines of a script, entries and
//! endings mean, row by row. It has no code.
#![tactic(auto)]
