//! The script that a number makes, and the line of what came of it.

use load_script::{load_line, load_text};
use std::alloc::Global;

/// The script behind 1, of one round: of the numbers 149, 11249 and 57305 the first two are 5 and 1 modulo 16, and the third is 1
/// modulo 4.
const ONE_ROUND: &[u8] = b"2 watch w emit counter(\"k0\").get();\n\
0 begin counter(\"k5\").add(1); emit counter(\"k1\").get();\n\
0 step\n\
1 do set(\"s\").add(\"k5\");\n\
0 go\n\
2 sync\n";

/// What three clients may be answered.
const ANSWERS: &[u8] =
    b"0 commit 1 ok 0\n1 commit 2 ok\n0 abort 0 2 set s add\n2 run w 2 ok 0\n2 current 2\n";

/// The line of that, where one round was run and there are two commits.
const THE_LINE: &[u8] = b"load 1 commits 2 aborts 1 runs 1 journal 2\n";

fn makes_the_script(alloc: Global) -> bool {
    match load_text(alloc, 1, 1) {
        Ok(text) => text.as_slice() == ONE_ROUND,
        Err(_) => false,
    }
}

fn makes_the_line(alloc: Global) -> bool {
    match load_line(alloc, 1, ANSWERS, 2) {
        Ok(line) => line.as_slice() == THE_LINE,
        Err(_) => false,
    }
}

#[test]
fn a_number_makes_its_script(rt: HostRuntime) {
    assert!(rt; makes_the_script(rt.alloc()));
    assert!(rt; makes_the_line(rt.alloc()));
}
