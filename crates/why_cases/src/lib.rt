//! Chains that are worked out by hand: the tests of `coord_why`, in a crate of their own, so that they are proved over its
//! clauses and not together with it. No program uses them.
#![tactic(auto)]

#[cfg(test)]
mod tests;
