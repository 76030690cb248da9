//! Making the table, and those who take part in it.
ghost use Rattle.std.specs.Prelude.{◌≡◌, [], ◌<◌, IfOk, length, replicate};
ghost use Rattle.tsc_stripe_table.specs.Stripes.{stripe_count};
ghost use Rattle.tsc_stripe_table.specs.Rule.{first_knowledge, keeping, word_count};
ghost use Rattle.tsc_stripe_table.specs.Steps.{other_states};
ghost use Rattle.tsc_stripe_table.specs.Participating.{IsOf, IsSized, KeepsStates, IsFirstOf};
ghost use Rattle.tsc_stripe_table.specs.Opening.{IsOpened, AreOpened};

use crate::places::word_count;
use crate::steps::SplitOff;
use crate::stripe::Stripe;
use crate::table::{Participant, Setup, SharedStripes, StripeTable};
use atomic_table::Table;
use std::alloc::Global;
use tsc_time::NoMemory;

/// The words: one of each lock, with fifteen others behind it.
fn blank_words(alloc: Global, stripes: u32) -> Result<Vec<u64>, NoMemory>
    ensures { IfOk result (λ words. words.items ≡ replicate (word_count stripes) 0) }
{
    Ok(vec![in alloc; 0; word_count(stripes)]?)
}

/// A stripe with an empty cache, in a block of its own.
fn new_stripe(alloc: Global, setup: &Setup) -> Result<Box<Stripe>, NoMemory>
    ensures { IfOk result (λ stripe. IsOpened setup.now stripe) }
{
    let stripe = Stripe::new(alloc, setup.config)?;
    Ok(Box::new(alloc, stripe)?)
}

/// The stripes at the opening.
fn new_stripes(alloc: Global, setup: &Setup, stripes: u32) -> Result<Vec<Box<Stripe>>, NoMemory>
    ensures count { IfOk result (λ all. length all.items ≡ stripes) }
    ensures opened { IfOk result (λ all. AreOpened setup.now all.items) }
{
    let mut all = Vec::with_capacity(alloc, stripes as usize)?;
    for _stripe in 0..stripes {
        let stripe = new_stripe(alloc, setup)?;
        all.push(stripe)?;
    }
    Ok(all)
}

/// A table with an empty cache for each stripe, and its first participant, which keeps the states
/// of all seats.
pub fn new_table(
    alloc: Global,
    setup: &Setup,
    stripes: u32,
) -> Result<(StripeTable, Participant), NoMemory>
    requires { stripes ≡ stripe_count setup.now.bounds }
    ensures table { IfOk result (λ made. IsSized made.0.shared.table_id setup.now.bounds
        × (made.0.shared.key ≡ setup.now)) }
    ensures all { IfOk result (λ made. (made.1.table_id ≡ made.0.shared.table_id)
        × (made.1.me ≡ (first_knowledge setup.now, []))) }
{
    let words = blank_words(alloc, stripes)?;
    let slots = new_stripes(alloc, setup, stripes)?;
    match Table::new(alloc, words.as_slice(), slots, setup) {
        Ok(made) => Ok(made),
        Err(_refused) => Err(NoMemory),
    }
}

/// The first of the states that a participant keeps goes to a participant of its own.
pub fn deal(shared: &SharedStripes, all: &mut Participant) -> Participant
    requires of { IsOf all.old shared.now.table_id }
    requires states { KeepsStates all.old.me.0 }
    requires some { 0 < length all.old.me.0.states }
    ensures table { all.new.table_id ≡ all.old.table_id }
    ensures others { all.new.me ≡ (
      keeping all.old.me.0.setup (other_states all.old.me.0.states),
      all.old.me.1,
    ) }
    ensures first { IsFirstOf all.old.me.0 result.me × (result.table_id ≡ all.old.table_id) }
{
    shared.split_seat::<SplitOff>(all)
}
