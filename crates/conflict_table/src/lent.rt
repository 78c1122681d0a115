//! One write of a delta, as it is lent.

ghost use Rattle.std.specs.Prelude.{◌≡◌, IfOk};
ghost use Rattle.conflict_table.specs.Parts.{shown};

use plain_data::Text;
use rdt_types::WriteOp;
use std::alloc::AllocError;

/// One write of a delta, which lends its texts. Its variants are those of a `WriteOp`.
#[derive(Clone, Copy, Debug, Drop, PartialEq, Eq)]
pub enum Part<'a> {
    PutBool(bool),
    PutCounter(i64),
    AddCounter(i64),
    PutText(&'a Text),
    SetAdd(&'a Text),
    SetRemove(&'a Text),
    SetClear,
    HashPut(&'a Text, &'a Text),
    HashRemove(&'a Text),
    HashClear,
    ListPush(&'a Text),
    ListRemove(&'a Text),
    ListClear,
    Raise(i64),
}

/// A part with texts of its own, as the operation that it shows.
pub fn copy_part(part: &Part<'_>) -> Result<WriteOp, AllocError>
    ensures { IfOk result (λ op. op ≡ shown part.now) }
{
    Ok(match *part {
        Part::PutBool(b) => WriteOp::PutBool(b),
        Part::PutCounter(n) => WriteOp::PutCounter(n),
        Part::AddCounter(n) => WriteOp::AddCounter(n),
        Part::PutText(text) => WriteOp::PutText(text.clone()?),
        Part::SetAdd(x) => WriteOp::SetAdd(x.clone()?),
        Part::SetRemove(x) => WriteOp::SetRemove(x.clone()?),
        Part::SetClear => WriteOp::SetClear,
        Part::HashPut(f, text) => WriteOp::HashPut(f.clone()?, text.clone()?),
        Part::HashRemove(f) => WriteOp::HashRemove(f.clone()?),
        Part::HashClear => WriteOp::HashClear,
        Part::ListPush(x) => WriteOp::ListPush(x.clone()?),
        Part::ListRemove(x) => WriteOp::ListRemove(x.clone()?),
        Part::ListClear => WriteOp::ListClear,
        Part::Raise(n) => WriteOp::Raise(n),
    })
}
