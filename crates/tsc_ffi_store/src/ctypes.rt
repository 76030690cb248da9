//! The structs that C hands in and gets back, and what their numbers mean together.
// What C and the library hand to each other. The header `include/tscache.h` declares it in C.

/// A time: nanoseconds, and a count among those of one nanosecond.
#[repr(C)]
#[derive(Clone, Copy)]
pub struct TscTime {
    pub wall: u64,
    pub logical: u32,
}

/// A time with its owner. Sixteen zero bytes name nobody.
#[repr(C)]
#[derive(Clone, Copy)]
pub struct TscValue {
    pub wall: u64,
    pub logical: u32,
    pub owner: [u8; 16],
}

/// One mark of several: where its keys lie among the bytes that come with the marks, which ends its
/// span has, and its value.
#[repr(C)]
#[derive(Clone, Copy)]
pub struct TscMark {
    pub from_at: usize,
    pub from_len: usize,
    pub to_at: usize,
    pub to_len: usize,
    pub value: TscValue,
    pub ends: u32,
}

/// One span of several: where its keys lie among the bytes that come with the spans, and which ends
/// it has.
#[repr(C)]
#[derive(Clone, Copy)]
pub struct TscSpan {
    pub from_at: usize,
    pub from_len: usize,
    pub to_at: usize,
    pub to_len: usize,
    pub ends: u32,
}

/// What an Add did.
#[repr(C)]
#[derive(Clone, Copy)]
pub struct TscAdded {
    pub evicted: u64,
    pub kept: bool,
    pub rotated: bool,
}

/// What can be counted of a cache, and of what was asked of it by a handle.
#[repr(C)]
#[derive(Clone, Copy)]
pub struct TscFigures {
    pub pages: u64,
    pub rotations: u64,
    pub nodes: u64,
    pub bytes: u64,
    pub memory: u64,
    pub adds: u64,
    pub refusals: u64,
    pub lookups: u64,
    pub evicted: u64,
}

/// A span as a call names it: two keys where they lie, and a number for its ends.
#[derive(Clone, Copy)]
pub struct SpanArgs<'a> {
    pub from: &'a [u8],
    pub to: &'a [u8],
    pub ends: u32,
}

/// One span to be added with its value, at a moment.
#[derive(Clone, Copy)]
pub struct AddArgs<'a> {
    pub span: SpanArgs<'a>,
    pub value: &'a TscValue,
    pub moment: &'a TscTime,
}

/// Several marks to be added at a moment, whose keys lie among some bytes.
#[derive(Clone, Copy)]
pub struct BatchArgs<'a> {
    pub keys: &'a [u8],
    pub marks: &'a [TscMark],
    pub moment: &'a TscTime,
}

/// The numbers of a configuration, and its low water.
#[derive(Clone, Copy)]
pub struct ConfigArgs<'a> {
    pub page_first: u32,
    pub page_max: u32,
    pub min_pages: u32,
    pub retention: u64,
    pub low_water: &'a TscTime,
}

/// Where stripes begin: bytes, and how many of them each bound has, one behind another.
#[derive(Clone, Copy)]
pub struct BoundsArgs<'a> {
    pub keys: &'a [u8],
    pub lens: &'a [usize],
}

/// A write of several spans, whose keys lie among some bytes: when it is to be made, and by whom.
#[derive(Clone, Copy)]
pub struct WriteArgs<'a> {
    pub keys: &'a [u8],
    pub spans: &'a [TscSpan],
    pub write: &'a TscValue,
}

/// A span whose reads are to be summarized, in at most `most` marks.
#[derive(Clone, Copy)]
pub struct SummaryArgs<'a> {
    pub span: SpanArgs<'a>,
    pub most: usize,
}

/// The bytes of a summary, to be applied at a moment.
#[derive(Clone, Copy)]
pub struct ApplyArgs<'a> {
    pub summary: &'a [u8],
    pub moment: &'a TscTime,
}
