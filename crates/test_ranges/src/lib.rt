//! Tests of ranges: rows that each way through a call takes with ample memory, calls that are
//! refused it, the clients of a shared range, and random histories of transactions.
//!
//! That transactions are serializable is proved. Each history is executed once more by brute force
//! in the serial order, by code that shares none with the range, so that the definition of the
//! proof is seen to mean that.
#![tactic(auto)]

#[cfg(test)]
mod clients;
#[cfg(test)]
mod refused;
#[cfg(test)]
mod scenarios;
#[cfg(test)]
mod tests;
