//! Tests of sessions whose backend is in their way: a rival that is always faster (`rival`), and a store that fails (`broken`). Each
//! is a backend that hands the calls on to a client's pass on the shared store, as no script can show and no store here does.

mod broken;
mod interrupted;
mod rival;
mod tries;
