//! A watch that is asked for.

use plain_data::Text;
use txn_lang::Checked;

/// A watch that is asked for: the name by which a body is to be watched.
#[derive(Debug, Drop)]
pub struct NewWatch {
    pub name: Text,
    pub body: Checked,
}
