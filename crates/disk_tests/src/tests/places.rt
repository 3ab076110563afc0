//! Where loads stand of which a manifest tells.
ghost use Rattle.std.specs.Prelude.{◌≡◌, ◌≢◌, ◌∷◌, ◌++◌, List, None, length, true};
ghost use Rattle.disk_layout.specs.Manifest.{LoadEntry, manifest_view};

use disk_layout::{LoadPlace, Manifest, find_load, typed_entries};
use std::alloc::Global;
use std::test::Fail;

/// Whether the manifest has a load of this number, from 0, with a type id.
pub(super) fn has_type(manifest: &Manifest, number: u16) -> bool
    ensures { result ≡ true → (before behind : List LoadEntry) × (load : LoadEntry)
        × (manifest_view manifest.now ≡ before ++ load ∷ behind) × (length before ≡ number)
        × (load.type_id ≢ None) }
{
    match manifest.loads.as_slice().get(number as usize) {
        Some(load) => load.type_id.is_some(),
        None => false,
    }
}

/// Where the load of this number, from 0, stands, of which these bytes of a manifest tell with its
/// type id, if they do.
fn place_of(alloc: Global, bytes: &[u8], number: u16) -> Result<Option<LoadPlace>, Fail> {
    let Ok(manifest) = Manifest::decode(alloc, bytes) else {
        return Err(Fail::new("no manifest"));
    };
    let is_there = has_type(&manifest, number);
    drop(manifest);
    if is_there {
        Ok(Some(find_load(typed_entries(bytes), number)))
    } else {
        Ok(None)
    }
}

/// Three loads: of two files, of one without bytes, and of three. Their entries have 41, 29 and 49
/// bytes, and their files 16,777,215 and 66,051, none, and 1, 256 and none.
const THREE_LOADS: &[u8] = b"\xA0\x02\x00\x03\
MMM12-0001-ABCD\x00\x07\x00\x02\x07OLD.LUH\x00\xFF\xFF\xFF\x05A.BIN\x00\x01\x02\x03\
ABC42-0000-0002\xA0\x02\x00\x01\x05B.LUH\x00\x00\x00\x00\
ABC43-0000-0003\x00\x00\x00\x03\x05C.LUH\x00\x00\x00\x01\x05C.BIN\x00\x00\x01\x00\x05C.TXT\x00\x00\x00\x00";

/// Where an entry begins and how long it is, and the same of the files.
const PLACES: [(usize, usize, u64, u64); 3] = [
    (0, 41, 0, 16_843_266),
    (41, 29, 16_843_266, 0),
    (70, 49, 16_843_266, 257),
];

#[test]
fn each_load_of_a_manifest_is_found(rt: HostRuntime) -> Result<(), Fail> {
    for (number, &(entry, entry_length, files, files_length)) in PLACES.iter().enumerate() {
        let place = LoadPlace {
            entry,
            entry_length,
            files,
            files_length,
        };
        let found = place_of(rt.alloc(), THREE_LOADS, number as u16)?;
        assert!(rt; found == Some(place), "load {number}");
    }
    assert_eq!(rt; place_of(rt.alloc(), THREE_LOADS, 3)?, None);
    Ok(())
}
