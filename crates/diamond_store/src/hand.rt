//! Whom the registry looks at next.

ghost use Rattle.std.specs.Prelude.{◌≡◌};
ghost use Rattle.diamond_store.specs.Hands.{turned};

/// A hand that goes round the clients that have taken, from the least number to the greatest and over again.
#[derive(Debug, Drop)]
pub(crate) struct Hand {
    at: u32,
    least: u32,
    greatest: u32,
}

impl Hand {
    /// Nobody has taken.
    pub(crate) fn new() -> Hand {
        Hand {
            at: 0,
            least: u32::MAX,
            greatest: 0,
        }
    }

    /// Moves on, where a client has taken, and answers to whom.
    pub(crate) fn turn(&mut self, client: u32) -> u32
        ensures moves { self.new ≡ turned self.old client }
        ensures at { result ≡ self.new.at }
    {
        self.least = self.least.min(client);
        self.greatest = self.greatest.max(client);
        self.at = if self.least <= self.at && self.at < self.greatest {
            self.at + 1
        } else {
            self.least
        };
        self.at
    }
}
