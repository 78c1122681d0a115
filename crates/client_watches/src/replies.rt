//! The replies of a line. The place of the last is there before the store is asked for anything, and each report keeps one for the
//! reply behind it.

ghost use Rattle.std.specs.Prelude.{◌≡◌, ◌∷◌, [], ◌++◌, IfOk, OnOk};

use crate::watching::ReplyList;
use session_text::Reply;
use std::alloc::{AllocError, Global};

/// Takes the memory for the place of one reply more.
fn keep_place(said: &mut ReplyList) -> Result<(), AllocError>
    ensures { said.new ≡ said.old }
{
    let count = said.len();
    said.push(Reply::Idle)?;
    said.truncate(count);
    Ok(())
}

/// No reply yet, and a place for one.
pub(crate) fn none_said(alloc: Global) -> Result<ReplyList, AllocError>
    ensures { IfOk result (λ said. said ≡ []) }
{
    let mut said = ReplyList::new(alloc);
    keep_place(&mut said)?;
    Ok(said)
}

/// Says a report, and keeps a place for the reply behind it.
pub(crate) fn say(said: &mut ReplyList, report: Reply) -> Result<(), AllocError>
    ensures { OnOk result (said.new ≡ said.old ++ report ∷ []) }
{
    said.push(report)?;
    keep_place(said)
}
