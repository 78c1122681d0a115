//! Tests of stale watches that are run anew, by one worker (`watch_reruns`) and by many (`par_rerun`): that calls find what they need
//! with ample memory, by worked lists, and that workers run side by side.

mod drivers;
mod lists;
mod workers;
