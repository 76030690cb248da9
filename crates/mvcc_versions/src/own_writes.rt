//! A transaction's own writes, put over the rows of what it reads.
ghost use Rattle.std.specs.Prelude.{◌≡◌, ◌≤◌, None, IfOk, OnOk, option_map, vec_len};
ghost use Rattle.std.specs.List.{insert};
ghost use Rattle.std.specs.Str.{bytes_eq};
ghost use Rattle.mvcc_versions.specs.Versions.{Contents, Matches, after_writes};
ghost use Rattle.mvcc_versions.specs.OwnRows.{place_of, has_row, put_row, put_write, put_writes};

use crate::rows::{is_in, row_of};
use crate::{Read, Row, Write};
use std::alloc::Global;
use timestamp_cache::{Key, NoMemory, Span};

/// The rows of a read with writes put over them, one after another.
pub fn rows_after(alloc: Global, read: &Read, writes: &[Write]) -> Result<Vec<Row>, NoMemory>
    ensures { IfOk result (λ rows. (there : Contents) → Matches read.now there
        → Matches (record { span = read.now.span; rows = rows.items })
        (λ k. after_writes k (there k) writes.now)) }
{
    rows_over(alloc, &read.span, &read.rows, writes)
}

/// Some rows of a span with writes put over them.
fn rows_over(
    alloc: Global,
    span: &Span,
    rows: &[Row],
    writes: &[Write],
) -> Result<Vec<Row>, NoMemory>
    ensures { IfOk result (λ over. over.items ≡ put_writes span.now rows.now writes.now) }
{
    let mut over = copies_of(alloc, rows)?;
    for write in writes {
        put_write(&mut over, span, write)?;
    }
    Ok(over)
}

/// A copy of some rows.
fn copies_of(alloc: Global, rows: &[Row]) -> Result<Vec<Row>, NoMemory>
    ensures { IfOk result (λ copy. copy.items ≡ rows.now) }
{
    let mut copy = Vec::new(alloc);
    for row in rows {
        copy.push(row_of(&row.key, &row.value)?)?;
    }
    Ok(copy)
}

/// Puts a write over rows, where its key lies in their span.
fn put_write(rows: &mut Vec<Row>, span: &Span, write: &Write) -> Result<(), NoMemory>
    ensures { OnOk result (rows.new.items ≡ put_write span.now rows.old.items write.now) }
{
    if is_in(&write.key, span) {
        put(rows, &write.key, &write.content)
    } else {
        Ok(())
    }
}

/// Puts what a key has in place of what rows say of it.
fn put(rows: &mut Vec<Row>, key: &Key, content: &Option<Vec<u8>>) -> Result<(), NoMemory>
    ensures { OnOk result (rows.new.items ≡ put_row rows.old.items key.now
        (option_map (λ b. b.items) content.now)) }
{
    let place = clear(rows, key);
    match content {
        Some(value) => put_value(rows, place, key, value),
        None => Ok(()),
    }
}

/// Puts a row at a place.
fn put_value(rows: &mut Vec<Row>, place: usize, key: &Key, value: &Vec<u8>) -> Result<(), NoMemory>
    requires { place ≤ vec_len rows.old }
    ensures { OnOk result (rows.new.items
        ≡ insert rows.old.items place (record { key = key.now; value = value.now.items })) }
{
    rows.insert(place, row_of(key, value)?)?;
    Ok(())
}

/// Takes a key's row away, if it has one, and answers where its place is.
fn clear(rows: &mut Vec<Row>, key: &Key) -> usize
    ensures place { result ≡ place_of rows.old.items key.now }
    ensures within { result ≤ vec_len rows.new }
    ensures rows { rows.new.items ≡ put_row rows.old.items key.now None }
{
    let place = place_of(rows, key);
    if is_there(rows, place, key) {
        rows.remove(place);
    }
    place
}

/// Whether the row at a key's place is its own.
fn is_there(rows: &[Row], place: usize, key: &Key) -> bool
    requires { place ≡ place_of rows.now key.now }
    ensures { result ≡ has_row rows.now key.now }
{
    if place < rows.len() {
        return is_of(&rows[place], key);
    }
    false
}

/// Whether a row is a key's.
fn is_of(row: &Row, key: &Key) -> bool
    ensures { result ≡ bytes_eq row.now.key key.now }
{
    row.key == *key
}

/// How many rows have a lower key.
fn place_of(rows: &[Row], key: &Key) -> usize
    ensures { result ≡ place_of rows.now key.now }
{
    let mut place = 0;
    for row in rows {
        if row.key < *key {
            place += 1;
        } else {
            return place;
        }
    }
    place
}
