//! Changes that are lent, made and read piece by piece.

ghost use Rattle.std.specs.Prelude.{◌≡◌, ◌++◌, ◌<◌, [], IfSome, MatchOption};
ghost use Rattle.change_feed.specs.Lists.{listed, pieces_left};

use crate::change::Change;
use crate::changes::Changes;

impl<'a> Changes<'a> {
    /// No changes.
    pub fn none() -> Changes<'a>
        ensures { listed result ≡ [] }
    {
        Changes::of(&[])
    }

    /// The changes of a slice.
    pub fn of(changes: &'a [Change]) -> Changes<'a>
        ensures { listed result ≡ changes.now }
    {
        Changes {
            skipped: 0,
            sealed: &[],
            last: changes,
        }
    }

    /// Takes the next piece off, until there is none. A piece may be empty.
    pub fn next_piece(&mut self) -> Option<&'a [Change]>
        ensures piece { MatchOption result (listed self.old ≡ []) (λ piece. listed self.old ≡ piece.now ++ listed self.new) }
        ensures fewer { IfSome result (λ _. pieces_left self.new < pieces_left self.old) }
    {
        if let [first, rest @ ..] = self.sealed {
            let piece = &first.as_slice()[self.skipped..];
            *self = Changes {
                skipped: 0,
                sealed: rest,
                last: self.last,
            };
            return Some(piece);
        }
        if self.last.is_empty() {
            return None;
        }
        let piece = self.last;
        self.last = &[];
        Some(piece)
    }
}
