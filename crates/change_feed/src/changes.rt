//! Changes that are lent.

ghost use Rattle.change_feed.specs.Segments.{IsInFirst};

use crate::change::Change;
use crate::segment::Segment;

/// Changes lent: those in sealed segments but for the first few of the first, and then some more.
#[derive(Clone, Copy)]
pub struct Changes<'a> {
    pub skipped: usize,
    pub sealed: &'a [Segment],
    pub last: &'a [Change],
    pub ghost skips: { IsInFirst skipped sealed.now },
}
