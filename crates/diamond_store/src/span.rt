//! Which commits what follows takes next.

ghost use Rattle.std.specs.Prelude.{◌≤◌};

/// The commits past one number and up to another.
#[derive(Clone, Copy)]
pub(crate) struct Span {
    pub from: u64,
    pub to: u64,
    pub ghost order: { from ≤ to },
}
