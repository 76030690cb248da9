//! A cache in stripes: how it is opened, and how seats are dealt and learn from one another.
ghost use Rattle.std.specs.Prelude.{◌≡◌, ◌↔◌, ◌<◌, IsOk, IfOk, IfErr, IfSome, IfNone};
ghost use Rattle.std.specs.Prelude.{All, length, [], ◌≤◌, vec_capacity};
ghost use Rattle.tsc_stripe_table.specs.Stripes.{stripe_count, piece_of};
ghost use Rattle.tsc_striped.specs.Seats.{IsSettled};
ghost use Rattle.tsc_striped.specs.Answers.{Opens, open_fault, Deals, DealsNone};
ghost use Rattle.tsc_striped.specs.Answers.{Learns, Meets, Closes};

use crate::answers::{Closed, OpenFault, StillOut};
use crate::bounds::are_in_order;
use crate::gathering::gather;
use crate::pieces::piece_in;
use crate::prefixes::Prefixes;
use crate::seat::{Dealer, Front, Seat};
use std::alloc::Global;
use std::marker::Model;
use std::snapshot::Snapshot;
use tsc_cache::{Cache, Config, Mark};
use tsc_span::{Ends, Key, Span};
use tsc_stripe_table::{
    Setup, StripeTable, catch_up, close, deal, new_front, new_table, see_front,
};
use tsc_time::{NoMemory, Timestamp, Value};

/// Both ends of a span are left out.
const NEITHER: Ends = Ends {
    exclude_from: true,
    exclude_to: true,
};

/// How many stripes a cache may have at the most.
const MOST_STRIPES: usize = 1024;

/// The least size of the largest page: two of the longest keys fit it.
const LEAST_PAGE_MAX: u32 = 8256;

/// A timestamp cache that threads share, in stripes.
///
/// Each stripe is a cache of its own for a range of keys, under a lock of its own. A call acquires
/// the locks of the stripes that its span touches, and no others.
#[derive(Drop)]
pub struct StripedCache {
    pub(crate) alloc: Global,
    pub(crate) table: StripeTable,
    pub(crate) setup: Setup,
    pub(crate) bounds: Vec<Key>,
    pub(crate) prefixes: Prefixes,
    /// Room for the caches that closing gives, so that it takes no memory.
    pub(crate) room: Vec<Cache>,
}

impl Model for StripedCache {
    ghost use Rattle.std.specs.Prelude.{◌≡◌, ◌≤◌, [], vec_capacity};
    ghost use Rattle.tsc_striped.specs.Seats.{StripedView, IsSettled};

    ghost Value = { StripedView };

    ghost use Rattle.tsc_stripe_table.specs.Stripes.{stripe_count};
    ghost use Rattle.tsc_stripe_table.specs.Participating.{IsSized};
    ghost use Rattle.tsc_striped.specs.Keeping.{striped_view};

    ghost view = { λ c. striped_view c.table.shared.table_id c.setup };

    ghost invariant = { λ c. IsSized c.table.shared.table_id c.setup.bounds
        × (c.table.shared.key ≡ c.setup) × (c.bounds.items ≡ c.setup.bounds) × IsSettled c.setup
        × (c.room.items ≡ []) × (stripe_count c.setup.bounds ≤ vec_capacity c.room) };
}

/// Room for the caches of so many stripes.
fn room_for(alloc: Global, stripes: u32) -> Result<Vec<Cache>, NoMemory>
    ensures { IfOk result (λ room. (room.items ≡ []) × (stripes ≤ vec_capacity room)) }
{
    Ok(Vec::with_capacity(alloc, stripes as usize)?)
}

impl StripedCache {
    /// A cache to which nothing was added, and its dealer, which deals `seats` seats. Stripe 0 has
    /// the keys below the first bound, and each other stripe those from its bound on, below the
    /// next one. With no bounds there is one stripe.
    ///
    /// The opening is refused as `TooManyStripes` where there were to be more than 1,024 stripes.
    /// It is refused as `BoundsOutOfOrder` where some bound is not above the one before it, or the
    /// first one is the empty key. It is refused as `PageTooSmall` where the largest page has fewer
    /// than 8,256 bytes, into which any span fits. Else it is refused as `NoMemory`. The refusals
    /// are tested in this order.
    ///
    /// It takes the memory of a cache with an empty page for each stripe, and of the table that
    /// the seats share. It also takes that of a prefix of each bound, and of the room for the
    /// caches that closing gives. A seat takes no memory.
    pub fn open(
        alloc: Global,
        config: Config,
        bounds: Vec<Key>,
        seats: u32,
    ) -> Result<(StripedCache, Dealer), OpenFault>
        ensures opened { IfOk result
            (λ opened. Opens config bounds.items seats opened.0 opened.1) }
        ensures refused { IfErr result (λ fault. fault ≡ open_fault config bounds.items) }
    {
        if bounds.len() >= MOST_STRIPES {
            return Err(OpenFault::TooManyStripes);
        }
        if !are_in_order(bounds.as_slice()) {
            return Err(OpenFault::BoundsOutOfOrder);
        }
        if config.page_max() < LEAST_PAGE_MAX {
            return Err(OpenFault::PageTooSmall);
        }
        let _first = config.page_first();
        let stripes = bounds.len() as u32 + 1;
        let setup = Setup {
            config,
            seats,
            bounds: Snapshot::of(&bounds),
        };
        let prefixes = Prefixes::of(alloc, bounds.as_slice())?;
        let room = room_for(alloc, stripes)?;
        let (table, all) = new_table(alloc, &setup, stripes)?;
        let dealer = Dealer {
            participant: all,
            dealt: 0,
        };
        Ok((
            StripedCache {
                alloc,
                table,
                setup,
                bounds,
                prefixes,
                room,
            },
            dealer,
        ))
    }

    /// The next seat, with the least number that was not dealt yet, or `None` where all were dealt.
    /// It takes no memory and waits for nobody.
    pub fn deal(&self, dealer: &mut Dealer) -> Option<Seat>
        requires cache { dealer.old.cache ≡ self.now }
        ensures dealt { IfSome result (λ seat. Deals dealer.old dealer.new seat) }
        ensures none { IfNone result (DealsNone dealer.old dealer.new) }
    {
        let number = dealer.dealt;
        if number >= self.setup.seats {
            return None;
        }
        let participant = deal(&self.table.shared, &mut dealer.participant);
        dealer.dealt = number + 1;
        Some(Seat {
            participant,
            number,
            count: 0,
        })
    }

    /// How the cache was set up.
    pub fn config(&self) -> Config
        ensures { result ≡ self.now.terms.config }
    {
        self.setup.config
    }

    /// How many stripes there are. Whoever has a cache also learns here what was settled.
    pub fn stripes(&self) -> u32
        ensures value { result ≡ stripe_count self.now.terms.bounds }
        ensures settled { IsSettled self.now.terms }
    {
        self.bounds.len() as u32 + 1
    }

    /// What lies of a span in a stripe, over keys of its own: the empty span where nothing does.
    ///
    /// The call takes the memory of a copy of the span, which it gives back, and of the piece's
    /// keys. It acquires no lock, and waits for nobody.
    pub fn piece_of(&self, alloc: Global, stripe: u32, span: &Span) -> Result<Span, NoMemory>
        requires stripe { stripe < stripe_count self.now.terms.bounds }
        ensures { IfOk result (λ piece. piece ≡ piece_of self.now.terms.bounds stripe span.now) }
    {
        let whole = Mark {
            span: span.try_copy()?,
            value: Value::unowned(Timestamp::ZERO),
        };
        match piece_in(alloc, self.bounds.as_slice(), stripe, &whole)? {
            Some(piece) => Ok(piece.span),
            None => Ok(Span::for_lookup(Key::empty(alloc), Key::empty(alloc), NEITHER)),
        }
    }

    /// All that a seat has seen.
    pub(crate) fn front(&self, seat: &mut Seat) -> Front
        requires cache { seat.old.cache ≡ self.now }
        ensures same { seat.new ≡ seat.old }
        ensures front { result ≡ record { cache = seat.old.cache; seen = seat.old.seen } }
    {
        Front {
            participant: new_front(&self.table.shared, &mut seat.participant),
        }
    }

    /// Takes in a front. The seat has then seen a history that begins with both its own and the
    /// front's. The call costs two atomic steps. It acquires no lock, waits for nobody, and takes
    /// no memory.
    pub fn learn(&self, seat: &mut Seat, front: Front)
        requires cache { seat.old.cache ≡ self.now }
        requires front { front.cache ≡ self.now }
        ensures { Learns seat.old seat.new front }
    {
        see_front(&self.table.shared, &mut seat.participant, front.participant);
    }

    /// Has two seats meet: both have then seen one history, which begins with what each had seen.
    /// The call costs six atomic steps. It acquires no lock, waits for nobody, and takes no
    /// memory.
    pub fn meet(&self, first: &mut Seat, second: &mut Seat)
        requires first { first.old.cache ≡ self.now }
        requires second { second.old.cache ≡ self.now }
        ensures { Meets first.old second.old first.new second.new }
    {
        let shared = &self.table.shared;
        catch_up(shared, &mut first.participant, &mut second.participant);
        catch_up(shared, &mut second.participant, &mut first.participant);
    }

    /// Ends the cache where all its seats are handed in that were dealt, and gives the caches of
    /// its stripes. Where some are missing it hands all back. A seat that was dropped is missing
    /// for good.
    ///
    /// The call takes no memory, and waits for nobody. It costs two steps for each seat, and one
    /// for each stripe.
    pub fn close(self, dealer: Dealer, seats: Vec<Seat>) -> Result<Closed, StillOut>
        requires dealer { dealer.cache ≡ self }
        requires seats { All (λ seat. seat.cache ≡ self) seats.items }
        ensures closed { IfOk result (λ closed. Closes dealer seats.items closed) }
        ensures exactly { IsOk result ↔ (length seats.items ≡ dealer.dealt) }
        ensures still_out { IfErr result (λ out. (out.cache ≡ self) × (out.dealer ≡ dealer)
            × (out.seats.items ≡ seats.items)) }
    {
        let is_missing = seats.len() != dealer.dealt as usize;
        if is_missing {
            return Err(StillOut {
                cache: self,
                dealer,
                seats,
            });
        }
        let StripedCache {
            alloc: _,
            table,
            setup: _,
            bounds: _,
            prefixes: _,
            room,
        } = self;
        let all = gather(&table.shared, dealer.participant, seats);
        Ok(Closed {
            caches: close(table, all, room),
        })
    }
}
