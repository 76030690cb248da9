//! Gates: a caller's code that is called at set moments of a call, such as right before an Add can
//! be seen.
ghost use Rattle.std.specs.Prelude.{◌≡◌, ℕ, true, false};

/// Is told where the calls of threads, and the Adds of seats, stand. Tests hold threads up with it.
///
/// Threads and their calls are counted from 0. A gate is told from several threads at once.
///
/// What makes an Add is proved for whatever gate this may be. It knows of one alone that an Add was
/// told if it called `publish`.
pub trait Gate {
    /// An Add of this seat was told.
    ghost HasReported: { Self → ℕ → Type 0 };

    /// The thread is about to make this call.
    fn start(&self, thread: u32, call: u32);

    /// The call was answered.
    fn done(&self, thread: u32, call: u32);

    /// The Add of this seat is about to be published: nothing can refuse it now, and nobody
    /// has seen it yet. A refused Add is not told.
    fn publish(&self, seat: u32)
        ensures { HasReported self.now seat };
}

/// A gate that holds nobody up.
#[derive(Clone, Copy, Debug)]
pub struct NoGate;

impl Gate for NoGate {
    ghost HasReported = { λ _ _. Unit {0} };

    fn start(&self, _thread: u32, _call: u32) {}

    fn done(&self, _thread: u32, _call: u32) {}

    fn publish(&self, _seat: u32) {}
}

/// What a gate is told of one Add, once: that it is about to be published.
#[derive(Drop)]
pub struct Notice<'g, G> {
    gate: &'g G,
    reported: bool,
}

impl<'g, G: Gate> Notice<'g, G> {
    /// A gate that was told nothing yet.
    pub fn due(gate: &'g G) -> Notice<'g, G>
        ensures reported { result.reported ≡ false }
        ensures gate { result.gate.now ≡ gate.now }
    {
        Notice {
            gate,
            reported: false,
        }
    }

    /// Tells the gate of the Add of this seat.
    pub fn give(&mut self, seat: u32)
        requires once { self.old.reported ≡ false }
        ensures reported { self.new.reported ≡ true }
        ensures gate { G.HasReported self.old.gate.now seat }
    {
        self.gate.publish(seat);
        self.reported = true;
    }
}
