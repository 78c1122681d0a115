//! Commits written as bytes.

ghost use Rattle.std.specs.Prelude.{◌≡◌, Ok, IfOk, OnOk};
ghost use Rattle.commit_file.specs.declared.version.Version.TheVariants.{Two};
ghost use Rattle.record_code.specs.Room.{HasRoom};
ghost use Rattle.record_code.specs.Payloads.{payload, decoded, IsKeepable, IsUntold};
ghost use Rattle.record_code.specs.code.Heads.{with_head, HeadHasRoom};

use crate::field::{Field, write_list};
use crate::numbers::{write_u32, write_u64};
use crate::texts::write_text;
use plain_data::Text;
use std::alloc::{AllocError, Global};
use txn_lang::Commit;

/// Writes the numbers of a commit.
fn write_numbers(out: &mut Text, number: u64, client: u32, seq: u64) -> Result<(), AllocError>
    ensures written { OnOk result (out.new ≡ with_head out.old number client seq) }
    ensures room { HeadHasRoom number client seq }
{
    write_u64(out, number)?;
    write_u32(out, client)?;
    write_u64(out, seq)
}

/// The bytes of a commit.
fn spell(alloc: Global, commit: &Commit) -> Result<Text, AllocError>
    ensures written { IfOk result (λ bytes. bytes ≡ payload commit.now) }
    ensures room { IfOk result (λ bytes. HasRoom commit.now) }
{
    let mut out = Text::new(alloc);
    write_numbers(&mut out, commit.number, commit.client, commit.seq)?;
    write_text(&mut out, commit.body.as_slice())?;
    commit.outcome.write(&mut out)?;
    write_list(&mut out, commit.deltas.as_slice())?;
    Ok(out)
}

/// The payload of a commit. One with a list that is longer than four bytes tell is answered as want of memory.
pub fn encode(alloc: Global, commit: &Commit) -> Result<Text, AllocError>
    ensures written { IfOk result (λ bytes. bytes ≡ payload commit.now) }

    // What may be kept is read again as it was.
    ensures again { IfOk result (λ bytes. IsKeepable commit.now → decoded Two bytes ≡ Ok commit.now) }

    // What is of a client that isn't told of is read as none.
    ensures untold { IfOk result (IsUntold commit.now) }
{
    spell(alloc, commit)
}
