//! Changes that are shared.

ghost use Rattle.std.specs.Prelude.{◌≡◌, IfOk, IfErr};

use crate::change::Change;
use plain_data::ExactClone;
use std::alloc::{AllocError, AllocFailed, Global};
use std::marker::Model;
use std::sync::Arc;

/// Changes that don't change any more, shared by who follows them.
#[derive(Debug, Drop)]
pub struct Segment {
    shared: Arc<Vec<Change>, Global>,
}

impl Model for Segment {
    ghost use Rattle.std.specs.Prelude.{List};
    ghost use Rattle.std.specs.Coded.{coded_list};
    ghost use Rattle.std.specs.Arc.{arc_value};
    ghost use Rattle.change_feed.specs.declared.change.Change.{Change};
    ghost use Rattle.change_feed.specs.contracts.change.Change as change;

    ghost Value = { List Change };

    ghost coded = { coded_list change.the_row.coded };

    ghost view = { λ s. (arc_value s.shared).items };
}

impl Segment {
    /// Seals changes. For want of memory they are handed back.
    pub fn seal(changes: Vec<Change>) -> Result<Segment, AllocFailed<Vec<Change>>>
        ensures ok { IfOk result (λ segment. segment ≡ changes.items) }
        ensures given_back { IfErr result (λ failed. failed.value ≡ changes) }
    {
        let alloc = *changes.allocator();
        match Arc::new(alloc, changes) {
            Ok(shared) => Ok(Segment { shared }),
            Err(failed) => Err(failed),
        }
    }

    /// The changes, in order.
    pub fn as_slice(&self) -> &[Change]
        ensures { result.now ≡ self.now }
    {
        self.shared.as_slice()
    }
}

impl Clone for Segment {
    ghost is_clone = { λ original copy. copy ≡ original };

    fn clone(&self) -> Result<Self, AllocError> {
        let shared = Arc::try_clone(&self.shared)?;
        Ok(Segment { shared })
    }
}

impl ExactClone for Segment {
    ghost exact = { λ original copy same. same };
}
