//! Commits as bytes, and back: the payloads of a journal that is kept in a file.
//!
//! Read first `specs/Spelling.antt` (the bytes of each field), `specs/Fields.antt` and `specs/Reading.antt` (how they
//! are read) and `specs/Payloads.antt` (payloads, and what has one); the laws between them are in `specs/Laws.antt`.
#![tactic(auto)]

mod body;
mod decode_error;
mod decoding;
mod deltas;
mod encoding;
mod field;
mod field_error;
mod kinds;
mod laws;
mod numbers;
mod outcomes;
mod plain;
mod tags;
mod texts;

pub use decode_error::DecodeError;
pub use decoding::{decode, decode_old, decode_with_body, read_deltas};
pub use deltas::read_map;
pub use encoding::encode;
pub use field::{Field, read_list, write_list};
pub use field_error::FieldError;
pub use kinds::{byte_of_kind, read_kind};
pub use laws::{
    payloads_are_read, runs_are_recorded, runs_leave_forms, version_two_has_all_kinds,
    what_is_read_is_a_payload,
};
pub use numbers::{
    read_i64, read_tag, read_u32, read_u64, write_byte, write_i64, write_u32, write_u64,
};
pub use texts::{read_text, write_count, write_text};
