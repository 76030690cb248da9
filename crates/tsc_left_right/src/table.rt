//! The table that the threads share, and what each of them knows of it.
use crate::replicated::Replicated;
use atomic_table::{Seat as TableSeat, Shared, Table, TableRule};
use std::alloc::Global;
use std::collections::LinkedList;
use std::marker::PhantomData;
use std::sync::Arc;

/// What was settled when the table was made.
#[derive(Clone, Copy)]
pub struct Setup<S> {
    /// The settings of what is replicated.
    pub config: S,
    /// How many seats there are.
    pub seats: u32,
    /// How many operations there may be.
    pub limit: u64,
}

/// The two copies.
#[derive(Drop)]
pub struct Copies<C, O> {
    /// The copy that readers read, which is after all operations.
    pub active: Arc<C>,
    /// The standby copy, if it is there, which is after all operations but `lagging`.
    pub standby: Option<Arc<C>>,
    /// The last operation, if the standby copy has not had it yet.
    pub lagging: Option<O>,
}

/// What the writer works with.
#[derive(Drop)]
pub struct WriterState<C, O> {
    pub copies: Copies<C, O>,
    /// How many operations there were.
    pub length: u64,
    /// What HEAD says: the side of the active copy.
    pub head: u64,
    /// The epoch of each seat, as it was once the last operation was published.
    pub noted: Vec<u64>,
}

/// A handle on a copy, which has had the first `length` operations.
#[derive(Drop)]
pub struct ReadHandle<C> {
    pub copy: Arc<C>,
    pub length: u64,
}

/// What a slot has: the writer's state, a handle on a copy, or nothing.
#[derive(Drop)]
pub enum Slot<C, O> {
    Empty,
    Writer(Box<WriterState<C, O>>),
    Handle(ReadHandle<C>),
}

/// What is known of a seat. No value of it is made.
pub struct SeatState<E> {
    pub number: u32,
    /// What the seat has seen, and how many of its own operations are there.
    pub seen: LinkedList<E>,
    pub count: u64,
    /// Whether the seat holds the writer lock.
    pub holds: bool,
    /// 0 unpinned, 1 pinned, and 2 more than a side while it has its slot of that side in hand.
    pub stage: u64,
    /// Of the writer: how many seats it has cleared, and the epochs that it has noted.
    pub cleared: u64,
    pub noted: LinkedList<u64>,
    /// Of the writer: the side of the active copy.
    pub head: u64,
}

/// What a participant knows: the states of the seats that it keeps, and the history that its front
/// says. No value of it is made.
pub struct Knowledge<S, E> {
    /// Whether the participant was joined to no other.
    pub live: bool,
    pub setup: Setup<S>,
    pub states: LinkedList<SeatState<E>>,
    pub front: LinkedList<E>,
}

/// One seat at a time writes, and all that any seat has seen is a beginning of one history.
pub struct LeftRight<P> {
    replicated: PhantomData<P>,
}

impl<P: Replicated> TableRule<
    Slot<P::Value, P::Operation>,
    Knowledge<P::ConfigView, P::Entry>,
    Setup<P::ConfigView>,
> for LeftRight<P> {
    ghost use Rattle.tsc_left_right.specs.Rule.{LeftRightRule, first_knowledge};

    ghost holds = { LeftRightRule P.Replicated };

    ghost first = { first_knowledge };
}

/// Both copies, with the words and slots by which seats reach them.
///
/// Word 0 is 0 where the writer lock is free, and else one more than the number of the seat that
/// holds it. Word 1 is in the same way that of a seat that has waited long for it, and serves
/// courtesy alone: it may be any number. Word 16 is HEAD, the side of the active copy. Then comes
/// the epoch of each seat. Slot 0 is the writer's, and slot 16 * s + 8 * k + 8 is that of seat s on
/// side k. The lock, HEAD, each epoch and each slot has a line of 128 bytes of its own: sixteen
/// words, or eight slots of sixteen bytes or more (`places.rt`).
pub type Replicas<P> = Table<
    Slot<<P as Replicated>::Value, <P as Replicated>::Operation>,
    Knowledge<<P as Replicated>::ConfigView, <P as Replicated>::Entry>,
    Setup<<P as Replicated>::ConfigView>,
    LeftRight<P>,
    Global,
>;

/// The replicas as threads share them.
pub type SharedReplicas<P> = Shared<
    Slot<<P as Replicated>::Value, <P as Replicated>::Operation>,
    Knowledge<<P as Replicated>::ConfigView, <P as Replicated>::Entry>,
    Setup<<P as Replicated>::ConfigView>,
    LeftRight<P>,
>;

/// One that takes part: a seat of the table.
pub type Participant<P> = TableSeat<
    Slot<<P as Replicated>::Value, <P as Replicated>::Operation>,
    Knowledge<<P as Replicated>::ConfigView, <P as Replicated>::Entry>,
>;
