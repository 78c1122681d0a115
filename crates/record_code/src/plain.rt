//! Fields of plain data: truth values, texts, pairs, and nothing.

use crate::field::Field;
use crate::field_error::FieldError;
use crate::numbers::{read_tag, write_byte};
use crate::tags::TRUTHS;
use crate::texts::{read_text, write_text};
use commit_file::Version;
use plain_data::Text;
use std::alloc::{AllocError, Global};
use txn_lang::TEXT_LIMIT;

impl Field for bool {
    ghost use Rattle.record_code.specs.Spelling.{truth_bytes};
    ghost use Rattle.record_code.specs.Fields.{truth_at};
    ghost use Rattle.record_code.specs.Room.{Always};

    ghost spelling = { truth_bytes };

    ghost has_room = { Always };

    ghost read_at = { λ version. truth_at };

    fn write(&self, out: &mut Text) -> Result<(), AllocError> {
        write_byte(out, if *self { 1 } else { 0 })
    }

    fn read(_alloc: Global, _version: Version, bytes: &[u8]) -> Result<(bool, &[u8]), FieldError> {
        read_tag(&TRUTHS, bytes)
    }
}

/// What stands at a text that is named and has nothing beside it.
impl Field for () {
    ghost use Rattle.record_code.specs.Spelling.{nothing_bytes};
    ghost use Rattle.record_code.specs.Fields.{nothing_at};
    ghost use Rattle.record_code.specs.Room.{Always};

    ghost spelling = { nothing_bytes };

    ghost has_room = { Always };

    ghost read_at = { λ version. nothing_at };

    fn write(&self, _out: &mut Text) -> Result<(), AllocError> {
        Ok(())
    }

    fn read(_alloc: Global, _version: Version, bytes: &[u8]) -> Result<((), &[u8]), FieldError> {
        Ok(((), bytes))
    }
}

/// A text, which is no longer than texts may be.
impl Field for Text {
    ghost use Rattle.record_code.specs.Spelling.{text_bytes};
    ghost use Rattle.record_code.specs.Reading.{short_at};
    ghost use Rattle.record_code.specs.Room.{Always};

    ghost spelling = { text_bytes };

    ghost has_room = { Always };

    ghost read_at = { λ version. short_at };

    fn write(&self, out: &mut Text) -> Result<(), AllocError> {
        write_text(out, self.as_slice())
    }

    fn read(alloc: Global, _version: Version, bytes: &[u8]) -> Result<(Text, &[u8]), FieldError> {
        read_text(alloc, TEXT_LIMIT, bytes)
    }
}

/// One thing and then another.
impl<A: Field, B: Field> Field for (A, B) {
    ghost use Rattle.record_code.specs.Spelling.{pair_bytes};
    ghost use Rattle.record_code.specs.Fields.{pair_at};
    ghost use Rattle.record_code.specs.Room.{Both};

    ghost spelling = { pair_bytes A.spelling B.spelling };

    ghost has_room = { Both A.has_room B.has_room };

    ghost read_at = { λ version. pair_at (A.read_at version) (B.read_at version) };

    fn write(&self, out: &mut Text) -> Result<(), AllocError> {
        self.0.write(out)?;
        self.1.write(out)
    }

    #[tactic(auto, unfolding(crate::specs::Fields::pair_at))]
    fn read(alloc: Global, version: Version, bytes: &[u8]) -> Result<((A, B), &[u8]), FieldError> {
        let (first, rest) = A::read(alloc, version, bytes)?;
        let (second, rest) = B::read(alloc, version, rest)?;
        Ok(((first, second), rest))
    }
}
