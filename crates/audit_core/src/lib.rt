//! The audit: whether each commit of a list is what its body does on the state that the commits before it leave, and what the
//! state is behind them.
//!
//! It checks the store, and shares no code with its shards, its sessions or its journal: it stands on the language (`txn_parse`,
//! `txn_lang`, `txn_eval`), on the types and on the texts alone, and runs each body anew on plain values. Read first
//! `specs/Verdicts.antt` (what an audit says, by `IsLegal` of `txn_lang`), then `specs/Dumps.antt` (what commits leave, as a list)
//! and `specs/Reports.antt` (the lines that an auditor reads). `GrowingAudit` takes the commits one by one and keeps none.
#![tactic(auto)]

mod auditing;
mod comparing;
mod dumping;
mod growing;
mod laws;
mod reading;
mod reporting;
mod running;
mod state;
mod taken;
mod verdict;

pub use dumping::{AddressValues, dump};
pub use growing::{Audited, GrowingAudit, audit};
pub use laws::{flaws_are_breaches, one_dump, one_report, one_verdict};
pub use reporting::report;
pub use verdict::{Flaw, Verdict};
