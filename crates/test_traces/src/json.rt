//! Both readers of a trace, where they are refused memory: the next call gives what the first would
//! have given. That it is the trace of the text, or the fault that decides, is proved. This finds a
//! reader that gives up, and one that is refused again though there is memory.
use crate::support::*;
use tsc_trace_format::read_trace as read_values;

/// What a reader gives, asked once more where it is refused memory: `Ok` with the number of calls,
/// or the fault.
macro_rules! reported {
    ($alloc:ident, $reading:expr) => {{
        let read = match $reading {
            Err(TraceFault::NoMemory) => $reading,
            reported => reported,
        };
        let count = read.map(|trace| {
            let lists = trace.threads.slice().iter();
            lists.fold(0usize, |count, list| count.saturating_add(list.len()))
        });
        format!(in $alloc; "{count:?}")?
    }};
}

/// Reads a text by the reader that takes a trace from its tokens where it can, and by the one of
/// JSON values.
fn reads(alloc: Global, [wanted, text, ..]: Cells) -> Holds {
    let bytes = trace_of(alloc, WIDE, text)?;
    let quick = reported!(alloc, read_trace(alloc, &bytes));
    let by_values = reported!(alloc, read_values(alloc, &bytes));
    Ok(quick.as_str() == wanted && by_values.as_str() == wanted)
}

/// For `scripts/refuse growth`: faults are in the head, in the last call, and in what JSON is.
#[test]
fn a_refused_growth_changes_no_answer(rt: HostRuntime) -> Result<(), Fail> {
    all_hold!(rt, '|'; reads(rt.alloc()) => r#"
Ok(4)|sample
Err(Shape(0))|{"page_first":132,"page_max":8256,"min_pages":2,"retention":10,"low_water":[5],"threads":[[{"op":"low"}]]}
Err(Hex(2))|[[{"op":"low"},{"op":"get","span":{"start":"6"}}]]
Err(NotJson)|{"page_first":132,"page_max":8256,"min_pages":2,"retention":10,"low_water":[5,0],"threads":[[{"op":"low"}]]"#);
    Ok(())
}

/// As many lists, calls, marks and bytes of a key as there may be.
#[test]
fn limits_are_not_reported_too_early(rt: HostRuntime) -> Result<(), Fail> {
    all_hold!(rt, '|'; reads(rt.alloc()) => r#"
Ok(0)|[[],¦[],×62¦[]]
Ok(65536)|[[¦{"op":"low"},×65535¦{"op":"low"}]]
Ok(1)|[[{"op":"get","span":{"start":"¦61×4096¦"}}]]
Ok(1)|[[{"op":"batch","now":[20,0],"marks":[¦{"span":{"start":"61"},"time":[20,0]},×1023¦{"span":{"start":"61"},"time":[20,0]}]}]]"#);
    Ok(())
}
