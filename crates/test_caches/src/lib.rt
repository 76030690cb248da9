//! Tests of caches, of what no contract says: that memory which is there is not refused, how many
//! growths a call asks for and how large they are, how many steps it takes, what pages share, and
//! texts.
//!
//! What a cache answers is proved, and `test_rows` plays rows of it that are by another hand.
#![tactic(auto)]

#[cfg(test)]
mod growths;
#[cfg(test)]
mod memory;
#[cfg(test)]
mod refused;
#[cfg(test)]
mod texts;
#[cfg(test)]
mod work;
