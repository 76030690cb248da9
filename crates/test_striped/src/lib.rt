//! Tests of a cache in stripes, of what no contract says: that it answers as one cache does where
//! nothing is dropped, that memory which is there is not refused, that a stripe whose lock is held
//! holds up no other, and the texts of faults.
#![tactic(auto)]

#[cfg(test)]
mod alike;
#[cfg(test)]
mod calls;
#[cfg(test)]
mod held;
#[cfg(test)]
mod seats;
#[cfg(test)]
mod stopped;
