//! What payloads say.

ghost use Rattle.std.specs.Prelude.{◌≡◌, Bool, ℕ, List, IfOk};
ghost use Rattle.commit_file.specs.declared.version.Version.{Version};
ghost use Rattle.commit_file.specs.Recovering.{Takes};

use crate::version::Version;
use std::alloc::AllocError;

/// Takes payloads one behind another, and keeps what they say.
pub trait Chain {
    /// Whether a payload of a version may stand behind these.
    ghost follows: { Version → List (List ℕ) → List ℕ → Bool };

    /// The payloads that were taken.
    ghost payloads: { Self → List (List ℕ) };

    /// Takes a payload behind the others. `false` where it can't stand there.
    fn take(&mut self, version: Version, payload: &[u8]) -> Result<bool, AllocError>
        ensures follows { IfOk result (λ took. took ≡ follows version (payloads self.old) payload.now) }
        ensures takes { IfOk result (λ took. Takes took payload.now (payloads self.old) (payloads self.new)) };
}
