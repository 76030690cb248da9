//! Tests of the shared cache, through its public calls: where Adds are held up, raced and refused
//! memory, and how many growths they ask for.
//!
//! What a seat is answered, and what it has seen then, is proved for every schedule. These find an
//! Add that is not seen once it has returned, or before its gate was told; a call that waits; and
//! memory that is taken or refused without need.
#![tactic(auto)]

#[cfg(test)]
mod growths;
#[cfg(test)]
mod guest;
#[cfg(test)]
mod memory;
#[cfg(test)]
mod scenes;
#[cfg(test)]
mod stage;
#[cfg(test)]
mod summaries;
#[cfg(test)]
mod texts;
#[cfg(test)]
mod threads;
#[cfg(test)]
mod watch;
