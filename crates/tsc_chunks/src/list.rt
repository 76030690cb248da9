//! The list, whose front is a list of its own, and whose other elements lie in shared chunks.
ghost use Rattle.std.specs.Prelude.{◌≡◌, ◌∷◌, [], ◌<◌, ◌≤◌, ◌+◌, ◌-◌, ◌^◌, ◌*◌, take, length, map, true, IfOk, OnOk, OnErr, slice_index_or, IfSome, IsSome, ◌↔◌, ◌⊎◌};
ghost use Rattle.std.specs.Arc.{arc_value};
ghost use Rattle.tsc_chunks.specs.Chunks.{in_chunk, in_chunks, joined, AreFull, IsCutTo};

use std::alloc::{AllocError, Global};
use std::collections::VecDeque;
use std::marker::Model;
use std::mem::size_of;
use std::sync::Arc;

/// How many elements a chunk has.
const CHUNK: usize = 256;

/// From this number of elements in chunks on no further chunk is made. A machine has addresses for
/// fewer.
const MOST: usize = 1 << 62;

/// How many bytes the counter of owners has that stands beside a shared value.
const COUNTER_BYTES: u64 = 8;

/// Elements that lists share.
type Chunk<T> = VecDeque<Arc<T>>;

/// Chunks of elements, from the front to the back.
type Chunks<T> = VecDeque<Arc<Chunk<T>>>;

/// A list of elements, from the newest at its front to the oldest.
///
/// A copy of the list copies the newest elements' handles, of which there are at most 256, and
/// shares the chunks. To change a chunk that is shared, or the list of chunks, costs a step for
/// each of its members.
#[derive(Debug, Drop)]
pub struct ChunkedList<T> {
    newest: Chunk<T>,
    chunks: Arc<Chunks<T>>,
    /// How many elements of the chunks belong to the list. Those behind them were dropped.
    chunked: usize,
}

impl<T> Model for ChunkedList<T> {
    ghost use Rattle.std.specs.Prelude.{List, ◌++◌, ◌+◌, ◌≤◌, take, length, ◌^◌};
    ghost use Rattle.std.specs.Arc.{arc_value};
    ghost use Rattle.tsc_chunks.specs.Chunks.{in_chunk, in_chunks, joined, AreFull};

    ghost Value = { List T };

    ghost view = { λ o. in_chunk o.newest ++
        take o.chunked (joined (in_chunks (arc_value o.chunks))) };

    ghost invariant = { λ o. (length (in_chunk o.newest) ≤ 256) ×
        AreFull (in_chunks (arc_value o.chunks))
        × (o.chunked ≤ length (joined (in_chunks (arc_value o.chunks)))) ×
        (o.chunked ≤ 2 ^ 62 + 255) };
}

impl<T: Drop> ChunkedList<T> {
    /// No elements.
    pub fn new(alloc: Global) -> Result<ChunkedList<T>, AllocError>
        ensures { IfOk result (λ none. none ≡ []) }
    {
        Ok(ChunkedList {
            newest: VecDeque::new(alloc),
            chunks: Arc::new(alloc, VecDeque::new(alloc))?,
            chunked: 0,
        })
    }

    /// Where the list has its memory from.
    pub fn alloc(&self) -> Global {
        *self.newest.allocator()
    }

    /// How many elements there are.
    pub fn len(&self) -> usize
        ensures value { result ≡ length self.now }
        ensures small { result + 1 < 2 ^ 63 }
    {
        self.newest.len() + self.chunked
    }

    /// The element at a position, counted from the newest one.
    pub fn get(&self, at: usize) -> &T
        requires { at < length self.now }
        ensures { result.now ≡ slice_index_or self.now at result.now }
    {
        let newest = self.newest.len();
        if at < newest {
            return &self.newest[at];
        }
        get_in(&self.chunks, at - newest)
    }

    /// The oldest element.
    pub fn back(&self) -> Option<&T>
        ensures variant { IsSome result ↔ (0 < length self.now) }
        ensures lookup { IfSome result
            (λ x. x.now ≡ slice_index_or self.now (length self.now - 1) x.now) }
    {
        let len = self.len();
        if len == 0 {
            return None;
        }
        Some(self.get(len - 1))
    }

    /// A copy of the list, which shares the elements.
    pub fn share(&self) -> Result<ChunkedList<T>, AllocError>
        ensures same { IfOk result (λ same. same ≡ self.now) }
        ensures few { IfOk result (λ same. length same < 2 ^ 63) }
    {
        Ok(ChunkedList {
            newest: copy_of(self.alloc(), &self.newest)?,
            chunks: Arc::try_clone(&self.chunks)?,
            chunked: self.chunked,
        })
    }

    /// Brings an element to the front of the list.
    pub fn push_front(&mut self, element: Arc<T>) -> Result<(), AllocError>
        ensures pushed { OnOk result (self.new ≡ arc_value element ∷ self.old) }
        ensures unchanged { OnErr result (self.new ≡ self.old) }
        ensures few { length self.new < 2 ^ 63 }
    {
        if self.newest.len() >= CHUNK {
            if self.chunked >= MOST {
                return Err(AllocError);
            }
            push_chunk(&mut self.chunks, &self.newest)?;
            self.newest.clear();
            self.chunked += CHUNK;
        }
        self.newest.push_front(element)?;
        Ok(())
    }

    /// Drops the oldest element, if there is one.
    pub fn pop_back(&mut self)
        ensures left { self.new ≡ take (length self.old - 1) self.old }
        ensures few { length self.new < 2 ^ 63 }
    {
        if self.chunked > 0 {
            self.chunked -= 1;
        } else {
            self.newest.pop_back();
        }
    }

    /// Gives back what only dropped elements need, as far as memory for shorter lists is there.
    pub fn trim(&mut self)
        ensures same { self.new ≡ self.old }
        ensures few { length self.new < 2 ^ 63 }
    {
        if !self.is_trimmed() {
            trim_chunks(&mut self.chunks, self.chunked);
        }
    }

    /// How many bytes the blocks of memory have that hold the elements, those that were dropped and
    /// lie in a chunk still among them. `bytes_of` says of an element how many bytes its block and
    /// all blocks below it have. It is asked of each. A number stays at 2^64 - 1 once it is there.
    pub fn memory<F: Fn(&T) -> u64>(&self, bytes_of: &F) -> u64
        requires { F.IsAlwaysCallable bytes_of.now }
    {
        let mut bytes = shared_list_memory()
            .saturating_add(list_memory(self.chunks.capacity()))
            .saturating_add(chunk_memory(&self.newest, bytes_of));
        for chunk in self.chunks.iter() {
            bytes = bytes
                .saturating_add(shared_list_memory())
                .saturating_add(chunk_memory(chunk, bytes_of));
        }
        bytes
    }

    /// Whether the chunks have no element that was dropped.
    fn is_trimmed(&self) -> bool {
        let Some(oldest) = self.chunks.back() else {
            return true;
        };
        self.chunks.len() == self.chunked.div_ceil(CHUNK)
            && oldest.len() == (self.chunked - 1) % CHUNK + 1
    }
}

/// The block of a list with room for so many handles. A handle has one size, whatever it is of.
fn list_memory(capacity: usize) -> u64 {
    (capacity as u64).saturating_mul(size_of::<Arc<u8>>() as u64)
}

/// The block of a shared list of handles, which holds the counter of its owners too.
fn shared_list_memory() -> u64 {
    (size_of::<VecDeque<Arc<u8>>>() as u64).saturating_add(COUNTER_BYTES)
}

/// How many bytes the blocks of memory have that hold a chunk's elements, and the chunk's list.
fn chunk_memory<T, F: Fn(&T) -> u64>(chunk: &Chunk<T>, bytes_of: &F) -> u64
    requires { F.IsAlwaysCallable bytes_of.now }
{
    let mut bytes = list_memory(chunk.capacity());
    for element in chunk {
        bytes = bytes.saturating_add(bytes_of(element));
    }
    bytes
}

/// The element at a position in chunks.
fn get_in<T>(chunks: &Chunks<T>, at: usize) -> &T
    requires full { AreFull (in_chunks chunks.now) }
    requires within { at < length (joined (in_chunks chunks.now)) }
    ensures { result.now ≡ slice_index_or (joined (in_chunks chunks.now)) at result.now }
{
    let chunk = &chunks[at / CHUNK];
    &chunk[at % CHUNK]
}

/// Brings a chunk of these elements before other chunks.
fn push_chunk<T: Drop>(chunks: &mut Arc<Chunks<T>>, elements: &Chunk<T>) -> Result<(), AllocError>
    ensures pushed { OnOk result (in_chunks (arc_value chunks.new) ≡ in_chunk elements.now ∷
        in_chunks (arc_value chunks.old)) }
    ensures unchanged { OnErr result
        (in_chunks (arc_value chunks.new) ≡ in_chunks (arc_value chunks.old)) }
{
    let alloc = *elements.allocator();
    let chunk = Arc::new(alloc, copy_of(alloc, elements)?)?;
    let chunks = Arc::make_mut(chunks)?;
    chunks.push_front(chunk)?;
    Ok(())
}

/// Cuts chunks to their first `kept` elements, as far as memory for shorter lists is there.
fn trim_chunks<T: Drop>(chunks: &mut Arc<Chunks<T>>, kept: usize)
    requires full { AreFull (in_chunks (arc_value chunks.old)) }
    requires within { kept ≤ length (joined (in_chunks (arc_value chunks.old))) }
    ensures { IsCutTo kept (in_chunks (arc_value chunks.old)) (in_chunks (arc_value chunks.new)) }
{
    if let Ok(chunks) = Arc::make_mut(chunks) {
        cut(chunks, kept);
    }
}

/// Cuts chunks to their first `kept` elements, as far as memory for a shorter last chunk is there.
fn cut<T: Drop>(chunks: &mut Chunks<T>, kept: usize)
    requires full { AreFull (in_chunks chunks.old) }
    requires within { kept ≤ length (joined (in_chunks chunks.old)) }
    ensures { IsCutTo kept (in_chunks chunks.old) (in_chunks chunks.new) }
{
    chunks.truncate(kept.div_ceil(CHUNK));
    if let Some(oldest) = chunks.get_mut(kept / CHUNK) {
        cut_chunk(oldest, kept % CHUNK);
    }
}

/// Cuts a chunk to its first `kept` elements, if memory for the shorter chunk is there.
fn cut_chunk<T: Drop>(chunk: &mut Arc<Chunk<T>>, kept: usize)
    ensures { (in_chunk (arc_value chunk.new) ≡ in_chunk (arc_value chunk.old)) ⊎
        (in_chunk (arc_value chunk.new) ≡ take kept (in_chunk (arc_value chunk.old))) }
{
    if let Ok(elements) = Arc::make_mut(chunk) {
        elements.truncate(kept);
    }
}

/// A copy of a chunk, which shares the elements.
fn copy_of<T: Drop>(alloc: Global, elements: &Chunk<T>) -> Result<Chunk<T>, AllocError>
    ensures { IfOk result (λ copy. in_chunk copy ≡ in_chunk elements.now) }
{
    let mut copy = VecDeque::with_capacity(alloc, elements.len())?;
    for element in elements {
        copy.push_back(Arc::try_clone(element)?)?;
    }
    Ok(copy)
}
