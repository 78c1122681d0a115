//! What payloads mean.

ghost use Rattle.std.specs.Prelude.{◌≡◌, Bool, ℕ, List, IfOk};
ghost use Rattle.commit_file.specs.declared.version.Version.{Version};

use commit_file::Version;
use plain_data::Text;
use std::alloc::AllocError;

/// Says whether a payload may stand behind others.
pub trait Follows {
    /// Whether a payload of a version may stand behind these.
    ghost meaning: { Version → List (List ℕ) → List ℕ → Bool };

    /// Whether a payload of a version may stand behind these. All are looked at anew.
    fn may_follow(
        &self,
        version: Version,
        before: &[Text],
        payload: &[u8],
    ) -> Result<bool, AllocError>
        ensures { IfOk result (λ may. may ≡ meaning version before.now payload.now) };
}
