//! The line of what came of a load.

ghost use Rattle.std.specs.Prelude.{◌≡◌, ◌++◌, IfOk, OnOk};
ghost use Rattle.load_script.specs.LoadLine as spec;

use crate::counting::count_second;
use dio_core::NEWLINE;
use dtext::push_natural;
use plain_data::Text;
use std::alloc::{AllocError, Global};

/// Adds a word and a number.
fn push_count(line: &mut Text, name: &[u8], number: u64) -> Result<(), AllocError>
    ensures { OnOk result (line.new ≡ line.old ++ spec.counted name.now number) }
{
    line.extend_from_slice(name)?;
    push_natural(line, number)
}

/// The line of a script of so many rounds, by its output and by how many commits there are then.
pub fn load_line(alloc: Global, count: u32, output: &[u8], commits: u64) -> Result<Text, AllocError>
    ensures { IfOk result (λ line. line ≡ spec.load_line count output.now commits) }
{
    let mut line = Text::new(alloc);
    push_count(&mut line, b"load ", u64::from(count))?;
    push_count(&mut line, b" commits ", count_second(b"commit", output))?;
    push_count(&mut line, b" aborts ", count_second(b"abort", output))?;
    push_count(&mut line, b" runs ", count_second(b"run", output))?;
    push_count(&mut line, b" journal ", commits)?;
    line.push(NEWLINE)?;
    Ok(line)
}
