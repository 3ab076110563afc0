//! The encoders of the two media lists, part by part of their fields.
ghost use Rattle.std.specs.Prelude.{◌≡◌, ◌++◌, OnOk};
ghost use Rattle.std.specs.List.{concat};
ghost use Rattle.field_grammar.specs.Fields.{number_bytes};
ghost use Rattle.media_lists.specs.ListFields.{head_fields, identity_fields};

use crate::lists::{ListedFile, LoadEntry};
use crate::measuring::load_body_size;
use crate::reading::Pointers;
use field_codec::Writer;
use header_sections::{Entry, name_size, put_texts, text_size};
use load_base::NoMemory;
use part_number::PartNumber;

// ---- what the two lists share

/// The head of a list of `size` bytes.
#[tactic(auto, unfolding(crate::specs::ListFields::head_fields))]
pub fn put_head(
    out: &mut Writer,
    version: u16,
    size: u32,
    offsets: Pointers,
) -> Result<(), NoMemory>
    ensures { OnOk result (out.new ≡ out.old ++ concat (head_fields version size offsets)) }
{
    out.put_u32(size / 2)?;
    out.put_u16(version)?;
    out.put_u16(0)?;
    put_pointers(out, offsets)?;
    Ok(())
}

fn put_pointers(out: &mut Writer, offsets: Pointers) -> Result<(), NoMemory>
    ensures { OnOk result (out.new ≡ out.old ++
        (number_bytes 4 offsets.set ++ (number_bytes 4 offsets.entries
        ++ number_bytes 4 offsets.user))) }
{
    out.put_u32(offsets.set)?;
    out.put_u32(offsets.entries)?;
    out.put_u32(offsets.user)?;
    Ok(())
}

/// The part number of the set, and which member of how many the list belongs to.
#[tactic(auto, using(part_number::proofs::VerdictLemmas::part_size), unfolding(crate::specs::ListFields::identity_fields))]
pub fn put_identity(
    out: &mut Writer,
    set: &PartNumber,
    member: u8,
    members: u8,
) -> Result<(), NoMemory>
    ensures { OnOk result (out.new ≡ out.old ++ concat (identity_fields set.now member members)) }
{
    out.put_padded(set.as_slice())?;
    out.put_u8(member)?;
    out.put_u8(members)?;
    Ok(())
}

// ---- entries

impl Entry for ListedFile {
    ghost use Rattle.std.specs.Prelude.{⊤};
    ghost use Rattle.media_lists.specs.Files.{file_body_fields};

    ghost body_fields = { file_body_fields };

    ghost Fits = { λ _. ⊤ };

    #[tactic(auto, using(crate::proofs::Sizes::size_file_parts))]
    fn body_size(&self) -> u64 {
        name_size(&self.name) + text_size(&self.path) + 4
    }

    #[tactic(auto, unfolding(crate::specs::Files::file_body_fields))]
    fn put_body(&self, out: &mut Writer) -> Result<(), NoMemory> {
        out.put_padded(self.name.as_slice())?;
        out.put_padded(self.path.as_slice())?;
        out.put_u16(self.member)?;
        out.put_u16(self.crc16)?;
        Ok(())
    }
}

impl Entry for LoadEntry {
    ghost use Rattle.std.specs.Prelude.{◌≤◌, length};
    ghost use Rattle.media_lists.specs.Loads.{kept_fields};

    ghost body_fields = { kept_fields };

    ghost Fits = { λ load. length load.hardware.items ≤ 1024 };

    fn body_size(&self) -> u64 {
        load_body_size(self)
    }

    #[tactic(auto, using(part_number::proofs::VerdictLemmas::part_size), unfolding(crate::specs::Loads::load_body_fields))]
    fn put_body(&self, out: &mut Writer) -> Result<(), NoMemory> {
        out.put_padded(self.part.as_slice())?;
        out.put_padded(self.header_name.as_slice())?;
        out.put_u16(self.member)?;
        put_texts(out, self.hardware.as_slice())?;
        Ok(())
    }
}
