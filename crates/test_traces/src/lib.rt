//! Tests of traces, of runs and of the program's commands, through their public calls.
//!
//! What each answers is proved. These find calls that are refused memory without need, a text that
//! is read twice, a stream that is called too often, lists that wait for one another, a gate that
//! is called late, and faults with other texts. `scripts/test program` plays whole commands.
#![tactic(auto)]

#[cfg(test)]
mod check;
#[cfg(test)]
mod commands;
#[cfg(test)]
mod examples;
#[cfg(test)]
mod json;
#[cfg(test)]
mod one_pass;
#[cfg(test)]
mod replay;
#[cfg(test)]
mod runs;
#[cfg(test)]
mod streams;
#[cfg(test)]
mod support;
#[cfg(test)]
mod texts;
#[cfg(test)]
mod watch;
