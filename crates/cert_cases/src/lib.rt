//! Certificates that are read and printed: the tests of `cert_text`, in a crate of their own, so that they are proved over
//! its clauses and not together with it. No program uses them.
#![tactic(auto)]

#[cfg(test)]
mod printing;
#[cfg(test)]
mod texts;
