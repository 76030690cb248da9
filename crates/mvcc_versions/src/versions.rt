//! The versions of keys: which value a key has at which time.
use std::marker::Model;
use timestamp_cache::{Key, Span, Timestamp, Uuid};

/// What a key has from some time on, and which transaction wrote that. A deletion has no content.
#[derive(Debug, Drop)]
pub struct Version {
    pub(crate) at: Timestamp,
    pub(crate) by: Uuid,
    pub(crate) content: Option<Vec<u8>>,
}

impl Model for Version {
    ghost use Rattle.std.specs.Prelude.{option_map};
    ghost use Rattle.mvcc_versions.specs.Versions.{Version};

    ghost Value = { Version };

    ghost view = { λ v. record {
      at = v.at;
      by = v.by;
      content = option_map (λ b. b.items) v.content;
    } };
}

/// A write of a key: its bytes, or nothing for a deletion.
#[derive(Debug, Drop)]
pub struct Write {
    pub key: Key,
    pub content: Option<Vec<u8>>,
}

impl Model for Write {
    ghost use Rattle.std.specs.Prelude.{option_map};
    ghost use Rattle.mvcc_versions.specs.Versions.{Write};

    ghost Value = { Write };

    ghost view = { λ w. record { key = w.key; content = option_map (λ b. b.items) w.content } };
}

/// A key that has something, as a read answers it.
#[derive(Debug, Drop)]
pub struct Row {
    pub key: Key,
    pub value: Vec<u8>,
}

impl Model for Row {
    ghost use Rattle.mvcc_versions.specs.Versions.{Row};

    ghost Value = { Row };

    ghost view = { λ r. record { key = r.key; value = r.value.items } };
}

/// A span that was read, and the rows that were answered, in the order of their keys. The
/// transaction's own writes are not in them.
#[derive(Debug, Drop)]
pub struct Read {
    pub span: Span,
    pub rows: Vec<Row>,
}

impl Model for Read {
    ghost use Rattle.mvcc_versions.specs.Versions.{Read};

    ghost Value = { Read };

    ghost view = { λ r. record { span = r.span; rows = r.rows.items } };
}
