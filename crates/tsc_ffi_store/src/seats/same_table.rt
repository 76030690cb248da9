//! Tokens of one table. No program can tell whether two tokens are of one table, but a proof can.
ghost use Rattle.tsc_ffi_store.specs.SameTable.{SwapsIfSame};

use atomic_table::Seat as TableSeat;

/// The tokens change places if they are of one table.
///
/// A token has no bytes, so there is nothing to be moved. The proof of this function is written by
/// hand.
pub(crate) fn swap_if_same<S, V>(first: &mut TableSeat<S, V>, second: &mut TableSeat<S, V>)
    ensures { SwapsIfSame first.old second.old first.new second.new }
{}
