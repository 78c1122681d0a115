//! What words ask for.

use plain_data::Text;
use rdt_types::Settings;

/// What the program is to do.
#[derive(Debug, Drop)]
pub enum Plan {
    /// Run a script, over a store with these settings.
    Run(Settings),
    /// Serve so many sessions at an address, over a store with these settings, whose commits are kept in the file at a path, if one
    /// is given. Their links bring lines of text, or the requests of clients that run their sessions themselves.
    Serve {
        settings: Settings,
        address: Text,
        sessions: u32,
        file: Option<Text>,
        wire: bool,
    },
    /// Audit the journal in the file at a path, and say what the state is after so many commits, where that is asked for.
    Audit {
        file: Text,
        at: Option<u64>,
    },
    /// Run a session here, over the store that is served by requests at an address.
    Remote {
        address: Text,
    },
    /// Run the script that a number makes, of so many rounds, over a store with these settings, and count what comes of it.
    Load {
        settings: Settings,
        seed: u32,
        count: u32,
    },
}
