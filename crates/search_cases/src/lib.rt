//! Steps and whole searches that are worked out by hand: the tests of `step_rules` and `branch_bound`, in a crate of their own,
//! so that they are proved over the clauses of these and not together with them. No program uses them.
#![tactic(auto)]

#[cfg(test)]
mod tests;
