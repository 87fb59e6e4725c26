//! Network files that are read and printed: the tests of `network_file`, in a crate of their own, so that they are proved over
//! its clauses and not together with it. No program uses them.
#![tactic(auto)]

#[cfg(test)]
mod tests;
