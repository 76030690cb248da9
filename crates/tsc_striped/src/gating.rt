//! The gate of an Add.
ghost use Rattle.std.specs.Prelude.{◌≡◌, true, false};

use tsc_left_right::Gate;

/// What a gate is told of an Add of a seat, once: that it is about to be published.
#[derive(Drop)]
pub(crate) struct Publication<'g, G> {
    gate: &'g G,
    seat: u32,
    reported: bool,
}

impl<'g, G: Gate> Publication<'g, G> {
    /// A gate that was told nothing yet.
    pub(crate) fn due(gate: &'g G, seat: u32) -> Publication<'g, G>
        ensures reported { result.reported ≡ false }
        ensures gate { (result.gate.now ≡ gate.now) × (result.seat ≡ seat) }
    {
        Publication {
            gate,
            seat,
            reported: false,
        }
    }

    /// Tells the gate of the Add.
    pub(crate) fn give(&mut self)
        requires once { self.old.reported ≡ false }
        ensures reported { self.new.reported ≡ true }
        ensures gate { G.HasReported self.old.gate.now self.old.seat }
    {
        self.gate.publish(self.seat);
        self.reported = true;
    }
}
