//! Which references a joined end was made of.

use std::marker::Brand;

/// Names two references, in the type of what is made of them. So what is given back is known to be what was taken.
pub trait Naming {
    ghost use Rattle.std.specs.Prelude.{ℕ};

    /// That of the source.
    ghost source: { ℕ };

    /// That of the sink.
    ghost sink: { ℕ };
}

impl Naming for Brand {
    ghost source = { 0 };

    ghost sink = { 0 };
}
