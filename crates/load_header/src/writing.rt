//! The encoder of a load header, part by part of its fields.
ghost use Rattle.std.specs.Prelude.{◌≡◌, ◌++◌, ◌<◌, length, map, true, OnOk};
ghost use Rattle.std.specs.List.{concat, list_all, flat_map};
ghost use Rattle.load_header.specs.Header.{hardware_at_view};
ghost use Rattle.load_header.specs.HeaderFields.{positions_fields};
ghost use Rattle.load_header.specs.Encoding.{kind_fields, few_positions};

use crate::header::{FileEntry, HardwareAt};
use field_codec::Writer;
use header_sections::{Entry, name_size, put_text, put_texts, text_size};
use load_base::NoMemory;

// ---- positions

fn put_kind(out: &mut Writer, at: &HardwareAt) -> Result<(), NoMemory>
    requires { few_positions (hardware_at_view at.now) ≡ true }
    ensures { OnOk result (out.new ≡ out.old ++ concat (kind_fields at.now)) }
{
    put_text(out, &at.hardware)?;
    put_texts(out, at.positions.as_slice())?;
    Ok(())
}

fn put_each_kind(out: &mut Writer, list: &[HardwareAt]) -> Result<(), NoMemory>
    requires { list_all few_positions (map hardware_at_view list.now) ≡ true }
    ensures { OnOk result (out.new ≡ out.old ++ concat (flat_map kind_fields list.now)) }
{
    for at in list {
        put_kind(out, at)?;
    }
    Ok(())
}

#[tactic(auto, using(crate::proofs::Writes::kinds_written), unfolding(crate::specs::HeaderFields::positions_fields))]
pub(crate) fn put_positions(out: &mut Writer, list: &[HardwareAt]) -> Result<(), NoMemory>
    requires count { length list.now < 65536 }
    requires each { list_all few_positions (map hardware_at_view list.now) ≡ true }
    ensures { OnOk result (out.new ≡ out.old ++ concat
        (positions_fields (map hardware_at_view list.now))) }
{
    out.put_u16(list.len() as u16)?;
    put_each_kind(out, list)?;
    Ok(())
}

// ---- files

impl Entry for FileEntry {
    ghost use Rattle.std.specs.Prelude.{◌≤◌};
    ghost use Rattle.load_header.specs.HeaderFields.{file_body_fields};

    ghost body_fields = { file_body_fields };

    ghost Fits = { λ file. file.length ≤ 16777215 };

    #[tactic(auto, using(crate::proofs::Sizes::size_body_parts))]
    fn body_size(&self) -> u64 {
        name_size(&self.name) + text_size(&self.part) + 14
    }

    #[tactic(auto, unfolding(crate::specs::HeaderFields::file_body_fields))]
    fn put_body(&self, out: &mut Writer) -> Result<(), NoMemory> {
        out.put_padded(self.name.as_slice())?;
        put_text(out, &self.part)?;
        out.put_u32((self.length + 1) / 2)?;
        out.put_u64(u64::from(self.length))?;
        out.put_u16(self.crc16)?;
        Ok(())
    }
}
