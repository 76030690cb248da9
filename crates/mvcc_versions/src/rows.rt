//! What a span has as of a time.
ghost use Rattle.std.specs.Prelude.{◌≡◌, ◌↔◌, ◌++◌, IsTrue, IfOk, IfSome, OnOk, Some, true, false, option_map, slice_get};
ghost use Rattle.tsc_span.specs.Span.{point, covers, end_keys};
ghost use Rattle.mvcc_versions.specs.Versions.{as_of, Matches};
ghost use Rattle.mvcc_versions.specs.RowsIn.{row_for, row_in, stops_before};

use crate::chains::{content_as_of, content_at};
use crate::versions::Version;
use crate::{Read, Row};
use std::alloc::Global;
use std::collections::{BTreeMap, LinkedList};
use timestamp_cache::{Cut, Key, NoMemory, Span, Timestamp};

/// The rows of a span as of a time. A single key is searched for. Of any other span the first key
/// is, and from there it goes over the keys of the span.
pub(crate) fn rows_as_of(
    alloc: Global,
    chains: &BTreeMap<Key, LinkedList<Version>>,
    span: &Span,
    at: Timestamp,
) -> Result<Vec<Row>, NoMemory>
    ensures { IfOk result (λ rows. Matches (record { span = span.now; rows = rows.items })
        (as_of at chains.now.entries)) }
{
    match (single_key(span), span.end_keys().0) {
        (Some(key), _) => rows_of_key(alloc, chains, key, at),
        (None, Some(first)) => rows_from(alloc, chains, span, first, at),
        (None, None) => Ok(Vec::new(alloc)),
    }
}

/// The key of a span that is a single key.
fn single_key(span: &Span) -> Option<&Key>
    ensures { IfSome result (λ key. span.now ≡ point key.now) }
{
    match (span.cuts(), span.end_keys().0) {
        (Some((Cut::Before(from), Cut::After(to))), Some(key)) => {
            if from == key.bytes() && to == key.bytes() {
                Some(key)
            } else {
                None
            }
        }
        (_, _) => None,
    }
}

/// The row of a key as of a time, if it has something then.
fn rows_of_key(
    alloc: Global,
    chains: &BTreeMap<Key, LinkedList<Version>>,
    key: &Key,
    at: Timestamp,
) -> Result<Vec<Row>, NoMemory>
    ensures { IfOk result (λ rows. Matches (record { span = point key.now; rows = rows.items })
        (as_of at chains.now.entries)) }
{
    let rows = rows_for(alloc, key, content_at(chains, key, at))?;
    Ok(rows)
}

/// The row of a key that has this, if it has something.
fn rows_for(alloc: Global, key: &Key, content: Option<&Vec<u8>>) -> Result<Vec<Row>, NoMemory>
    ensures { IfOk result (λ rows. rows.items
        ≡ row_for key.now (option_map (λ b. b.now.items) content.entry)) }
{
    let mut rows = Vec::new(alloc);
    if let Some(value) = content {
        rows.push(row_of(key, value)?)?;
    }
    Ok(rows)
}

/// The rows of a span, whose first end key is given, as of a time.
fn rows_from(
    alloc: Global,
    chains: &BTreeMap<Key, LinkedList<Version>>,
    span: &Span,
    first: &Key,
    at: Timestamp,
) -> Result<Vec<Row>, NoMemory>
    requires { slice_get (end_keys span.now) 0 ≡ Some first.now }
    ensures { IfOk result (λ rows. Matches (record { span = span.now; rows = rows.items })
        (as_of at chains.now.entries)) }
{
    let mut rows = Vec::new(alloc);
    for (key, chain) in chains.range(first..) {
        if stops_before(span, key) {
            return Ok(rows);
        }
        add_row(&mut rows, span, at, key, chain)?;
    }
    Ok(rows)
}

/// Whether a span stops before a key.
fn stops_before(span: &Span, key: &Key) -> bool
    ensures { result ≡ stops_before span.now key.now }
{
    match span.cuts() {
        Some((_, to)) => to.is_below(Cut::After(key.bytes())),
        None => true,
    }
}

/// Adds the row of a key before which the span doesn't stop, where the key lies in the span and has
/// something.
fn add_row(
    rows: &mut Vec<Row>,
    span: &Span,
    at: Timestamp,
    key: &Key,
    chain: &LinkedList<Version>,
) -> Result<(), NoMemory>
    requires { stops_before span.now key.now ≡ false }
    ensures { OnOk result (rows.new.items ≡ rows.old.items ++ row_in span.now at (
      key.now,
      chain.now,
    )) }
{
    if !is_started(key, span) {
        return Ok(());
    }
    match content_as_of(chain, at) {
        Some(value) => push_row(rows, key, value),
        None => Ok(()),
    }
}

/// Whether a key before which a span doesn't stop lies in it.
fn is_started(key: &Key, span: &Span) -> bool
    requires { stops_before span.now key.now ≡ false }
    ensures { result ≡ covers span.now key.now }
{
    match span.cuts() {
        Some((from, _)) => !Cut::Before(key.bytes()).is_below(from),
        None => false,
    }
}

/// Whether a key lies in a span.
pub(crate) fn is_in(key: &Key, span: &Span) -> bool
    ensures { result ≡ covers span.now key.now }
{
    span.covers(key.bytes())
}

/// Adds a row.
fn push_row(rows: &mut Vec<Row>, key: &Key, value: &Vec<u8>) -> Result<(), NoMemory>
    ensures { OnOk result (rows.new.items ≡ rows.old.items
        ++ row_for key.now (Some value.now.items)) }
{
    rows.push(row_of(key, value)?)?;
    Ok(())
}

/// The row of a key that has this value.
pub(crate) fn row_of(key: &Key, value: &Vec<u8>) -> Result<Row, NoMemory>
    ensures { IfOk result (λ row. row ≡ record { key = key.now; value = value.now.items }) }
{
    Ok(Row {
        key: key.try_copy()?,
        value: value.clone()?,
    })
}

/// Whether a read is still what is there as of a time.
pub(crate) fn is_still_so(
    alloc: Global,
    chains: &BTreeMap<Key, LinkedList<Version>>,
    read: &Read,
    at: Timestamp,
) -> Result<bool, NoMemory>
    ensures { IfOk result (λ so. IsTrue so ↔ Matches read.now (as_of at chains.now.entries)) }
{
    match single_key(&read.span) {
        Some(key) => Ok(has_row(&read.rows, key, content_at(chains, key, at))),
        None => is_scan_still_so(alloc, chains, read, at),
    }
}

/// Whether some rows are that of a key that has this, if it has something.
fn has_row(rows: &[Row], key: &Key, content: Option<&Vec<u8>>) -> bool
    ensures { IsTrue result ↔ (rows.now
        ≡ row_for key.now (option_map (λ b. b.now.items) content.entry)) }
{
    match content {
        Some(value) => is_row(rows, key, value),
        None => rows.is_empty(),
    }
}

/// Whether some rows are one, of a key that has this value.
fn is_row(rows: &[Row], key: &Key, value: &Vec<u8>) -> bool
    ensures { IsTrue result ↔ (rows.now ≡ row_for key.now (Some value.now.items)) }
{
    match rows {
        [row] => is_row_of(row, key, value),
        _ => false,
    }
}

/// Whether a row is a key's, and has this value.
fn is_row_of(row: &Row, key: &Key, value: &Vec<u8>) -> bool
    ensures { IsTrue result ↔ (row.now ≡ record { key = key.now; value = value.now.items }) }
{
    if row.key != *key {
        return false;
    }
    row.value.as_slice() == value.as_slice()
}

/// Whether a read of several keys is still what is there as of a time.
fn is_scan_still_so(
    alloc: Global,
    chains: &BTreeMap<Key, LinkedList<Version>>,
    read: &Read,
    at: Timestamp,
) -> Result<bool, NoMemory>
    ensures { IfOk result (λ so. IsTrue so ↔ Matches read.now (as_of at chains.now.entries)) }
{
    let rows = rows_as_of(alloc, chains, &read.span, at)?;
    Ok(same_rows(&rows, &read.rows))
}

/// Whether two lists of rows are equal.
fn same_rows(rows: &[Row], others: &[Row]) -> bool
    ensures { IsTrue result ↔ (rows.now ≡ others.now) }
{
    if rows.len() != others.len() {
        return false;
    }
    for (i, row) in rows.iter().enumerate() {
        if !same_row(row, &others[i]) {
            return false;
        }
    }
    true
}

/// Whether two rows are equal.
fn same_row(row: &Row, other: &Row) -> bool
    ensures { IsTrue result ↔ (row.now ≡ other.now) }
{
    if row.key != other.key {
        return false;
    }
    row.value.as_slice() == other.value.as_slice()
}
