//! Installs a configuration into the bank that isn't active.
ghost use Rattle.std.specs.Prelude.{◌≡◌, ◌+◌, ◌-◌, ◌<◌, ◌≤◌, List, [], ◌++◌};
ghost use Rattle.std.specs.Prelude.{false, true};
ghost use Rattle.std.specs.Prelude.{Some, length, IsOk, IfErr, OnOk};
ghost use Rattle.std.specs.Option.{ForSome};
ghost use Rattle.load_base.specs.Config.{LoadView};
ghost use Rattle.field_grammar.specs.Fields.{number_bytes};
ghost use Rattle.disk_model.specs.Image.{Image, overlay, range};
ghost use Rattle.disk_model.specs.Moments.{LeavesOnly};
ghost use Rattle.disk_model.specs.State.{HasCause};
ghost use Rattle.disk_layout.specs.Offsets.{IsBankSize, most_files, most_loads};
ghost use Rattle.disk_layout.specs.Holds.{StandingView};
ghost use Rattle.bank_store.specs.declared.fault.StoreFault.TheVariants.{Memory};
ghost use Rattle.bank_store.specs.declared.stage.Filling.{Filling};
ghost use Rattle.disk_layout.specs.Slots.{IsManifestRange};
ghost use Rattle.bank_store.specs.Bounds.{IsStore, largest_bank};

use crate::fault::StoreFault;
use crate::head::head_of;
use crate::known::read_entries;
use crate::stage::{Filling, Stage};
use disk_layout::numbers::{u8_bytes, u16_bytes, u32_bytes};
use disk_layout::offsets::{LONGEST_MANIFEST, OPEN, SEQUENCE_IN_SLOT};
use disk_layout::{Active, LoadPlace, ManifestRange, SlotFields, find_load};
use disk_model::{Disk, DiskFault};
use load_base::{Bytes, Name, PartText};
use std::alloc::Global;
use std::mem;

/// How many bytes of a load that is kept are copied at once, at most.
const PIECE: usize = 512;

/// The gate of a slot that is shut.
const SHUT: u8 = 0;

/// Installs a configuration into the bank that isn't active, while the active one stays whole. It
/// holds no disk: each call that writes is lent the disk whose recovery gave the store.
///
/// An installation goes `prepare`, `begin`, then for each new load `start_load` and for each of its
/// files `append` as often as pieces of it come and `end_file`, and for each load of the active
/// configuration that stays `keep`; then `seal` and `activate`. The active slot and its bank are
/// never written; the other slot's gate is the last byte that is.
#[derive(Drop)]
pub struct Store {
    size: u32,
    active: Active,
    /// What the active manifest says of its loads, where it says their type ids.
    known: Bytes,
    other_is_open: bool,
    /// What the manifest says that is being made, after its first four bytes.
    body: Bytes,
    stage: Stage,
    ghost keeps: { IsStore size active known other_is_open body stage },
}

impl Store {
    ghost use Rattle.bank_store.specs.Store.{bank_size_of, active_of, active_slot, active_bank};
    ghost use Rattle.bank_store.specs.Store.{active_sequence, is_other_open, stage_of};
    ghost use Rattle.bank_store.specs.Store.{SameActive, IsIdle, IsFilling, IsSealed, IsPrepared};
    ghost use Rattle.bank_store.specs.Store.{IsBetweenLoads, AwaitsLoad, AwaitsFile};
    ghost use Rattle.bank_store.specs.Store.{AwaitsEnd, PassesBank, spare_of, load_announced};
    ghost use Rattle.bank_store.specs.Store.{file_ended, manifest_length, slot_body};
    ghost use Rattle.bank_store.specs.Store.{with_gate_shut, with_manifest, with_slot};
    ghost use Rattle.bank_store.specs.Store.{IsKeptLoad, PassesByKept, active_at, body_of};
    ghost use Rattle.bank_store.specs.Store.{known_of};
    ghost use Rattle.bank_store.specs.Store.{knows_entry, load_kept, nothing_filled, work_at};
    ghost use Rattle.bank_store.specs.Given.{Given, HasGiven, with_load, with_file, configured};
    ghost use Rattle.bank_store.specs.Fits.{HoldsFor, CanActivate};
    ghost use Rattle.bank_store.specs.Keeps.{Keeps, Continues, Begins, Appends, Seals, Activates};
    ghost use Rattle.bank_store.specs.Keeps.{KeepsLoad};
    ghost use Rattle.bank_store.specs.Keeps.{LeavesActive, LeavesRest, IsShutFor, KeepsNear};
    ghost use Rattle.bank_store.specs.Keeps.{IsOldOrNew};
    ghost use Rattle.bank_store.specs.DiskWrites.{WritesDisk, AddsOnly, TimeGoesOn};
    ghost use Rattle.bank_store.specs.DiskWrites.{IsRunning};
    ghost use Rattle.bank_store.specs.Known.{KnowsEntryAt};
    ghost use Rattle.bank_store.specs.Readopting.{CanReadopt, Readopts};
    ghost use Rattle.bank_store.specs.Refusals.{OnlyFails, RefusesToBegin, RefusesTooMuch};
    ghost use Rattle.disk_layout.specs.Slots.{other_slot};

    /// A store for a disk with banks of `size` bytes on which this is active, with a manifest that
    /// lies in its bank, and whose other slot is open or not. `known` is what the manifest says of
    /// its loads, as [`disk_layout::typed_entries`] gives it. It takes no memory yet.
    pub fn new(alloc: Global, size: u32, active: Active, other_is_open: bool, known: Bytes) -> Store
        requires size { IsBankSize size }
        requires manifest { IsManifestRange largest_bank active.manifest }
        ensures idle { IsIdle result }
        ensures size { bank_size_of result ≡ size }
        ensures active { active_of result ≡ active }
        ensures known { known_of result ≡ known.items }
        ensures other { is_other_open result ≡ other_is_open }
    {
        Store {
            size,
            active,
            known,
            other_is_open,
            body: Bytes::new(alloc),
            stage: Stage::Idle,
        }
    }

    /// Reserves the memory that an installation takes: twice the 565,860 bytes of the longest
    /// manifest, once for the one that is made, and once for the one that is active.
    pub fn prepare(&mut self) -> Result<(), StoreFault>
        ensures prepared { OnOk result (IsIdle self.old → IsPrepared self.new) }
        ensures again { IsPrepared self.old → IsOk result }
        ensures only_memory { IfErr result (λ fault. fault ≡ Memory) }
        ensures stage { stage_of self.new ≡ stage_of self.old }
        ensures length { manifest_length self.new ≡ manifest_length self.old }
        ensures given { (image : Image) (g : Given) → HasGiven self.old image g
            → HasGiven self.new image g }
        ensures continues { Continues self.old self.new }
    {
        let longest = LONGEST_MANIFEST as usize;
        self.body.reserve(longest)?;
        self.known
            .reserve(longest.saturating_sub(self.known.len()))?;
        Ok(())
    }

    /// Begins an installation: shuts the other slot where it is open, and syncs.
    ///
    /// SequenceSpent where the active sequence number is 4,294,967,295; then nothing was done.
    pub fn begin<K: Disk>(&mut self, disk: &mut K) -> Result<(), StoreFault>
        requires prepared { IsPrepared self.old }
        requires running { IsRunning (K.state disk.old) }
        // With Ok.
        ensures begins { OnOk result (Begins self.old self.new (K.state disk.old)
            (K.state disk.new)) }
        // Refusals.
        ensures refuses { RefusesToBegin self.old self.new disk.old disk.new result }
        // Whatever it answers.
        ensures clock { OnOk result ((K.state disk.old).clock < (K.state disk.new).clock) }
        ensures writes_disk { WritesDisk (K.state disk.old) (K.state disk.new) result }
        ensures keeps { Keeps self.old self.new (K.state disk.old) (K.state disk.new) result }
    {
        if self.active.sequence == u32::MAX {
            return Err(StoreFault::SequenceSpent);
        }
        self.shut_other(disk)?;
        // Only once the gate is shut on the medium may the body after it be written.
        disk.sync()?;
        self.other_is_open = false;
        self.stage = Stage::Filling(Filling {
            loads: 0,
            missing: 0,
            end: 0,
            start: 0,
        });
        Ok(())
    }

    /// Shuts the other slot where it is open.
    fn shut_other<K: Disk>(&self, disk: &mut K) -> Result<(), DiskFault>
        requires running { IsRunning (K.state disk.old) }
        ensures goes_on { TimeGoesOn (K.state disk.old) (K.state disk.new) }
        ensures cause { HasCause (K.state disk.old) (K.state disk.new) result }
        ensures leaves { LeavesActive self.now (K.state disk.old) (K.state disk.new) }
        ensures written { OnOk result (ForSome (K.state disk.old).reads
            (λ image. (K.state disk.new).reads ≡ Some (with_gate_shut self.now image))) }
        ensures rest { OnOk result (LeavesRest self.now (K.state disk.old) (K.state disk.new)) }
        ensures shut { OnOk result (ForSome (K.state disk.old).reads (λ image.
            ForSome (K.state disk.new).reads (λ now. (s : StandingView)
            → HoldsFor self.now image s → IsShutFor self.now now s))) }
    {
        // A shut gate isn't written again: a torn write could open a body that was never finished.
        if !self.other_is_open {
            return Ok(());
        }
        disk.write(self.other(), &[SHUT])
    }

    /// Announces a load of this type and of 1 to 256 files, after those before it, which are
    /// complete: 31 at most. It always answers Ok, and takes no memory.
    #[tactic(auto, using(crate::proofs::Giving::given_load, crate::proofs::Sizes::load_more))]
    pub fn start_load(&mut self, part: PartText, type_id: u16, files: u16) -> Result<(), StoreFault>
        requires filling { AwaitsLoad self.old }
        requires files { (1 ≤ files) × (files ≤ most_files) }
        ensures done { IsOk result }
        ensures filling { (progress : Filling) → IsFilling self.old progress
            → IsFilling self.new (load_announced files progress) }
        ensures manifest { manifest_length self.new ≡ manifest_length self.old + 19 }
        ensures body { body_of self.new ≡ ((body_of self.old ++ part) ++ number_bytes 2 type_id)
            ++ number_bytes 2 files }
        ensures given { (image : Image) (g : Given) → HasGiven self.old image g
            → HasGiven self.new image (with_load part type_id files g) }
        ensures continues { Continues self.old self.new }
    {
        let Stage::Filling(progress) = self.stage else {
            // The premise says that it is being filled.
            unreachable!()
        };
        self.body.extend(part.as_slice())?;
        self.body.extend(&u16_bytes(type_id))?;
        self.body.extend(&u16_bytes(files))?;
        self.stage = Stage::Filling(Filling {
            loads: progress.loads + 1,
            missing: files,
            ..progress
        });
        Ok(())
    }

    /// Writes a piece of the file that ends next, after what came before. No bytes make no call of
    /// the disk.
    ///
    /// BankFull where the contents would pass the bank; then nothing was written.
    pub fn append<K: Disk>(&mut self, disk: &mut K, bytes: &[u8]) -> Result<(), StoreFault>
        requires filling { AwaitsFile self.old }
        requires running { IsRunning (K.state disk.old) }
        // With Ok.
        ensures appends { OnOk result (Appends self.old self.new (K.state disk.old)
            (K.state disk.new) bytes.now) }
        ensures nothing { bytes.now ≡ [] → disk.new ≡ disk.old }
        // Refusals.
        ensures refuses { RefusesTooMuch (PassesBank self.old (length bytes.now)) self.old self.new
            disk.old disk.new result }
        // Whatever it answers.
        ensures writes_disk { WritesDisk (K.state disk.old) (K.state disk.new) result }
        ensures keeps { Keeps self.old self.new (K.state disk.old) (K.state disk.new) result }
    {
        let Stage::Filling(progress) = self.stage else {
            // The premise says that it is being filled.
            unreachable!()
        };
        let need = u64::from(progress.end) + bytes.len() as u64;
        if need > u64::from(self.size) {
            return Err(StoreFault::BankFull {
                need,
                have: self.size,
            });
        }
        if bytes.is_empty() {
            return Ok(());
        }
        disk.write(self.work() + progress.end, bytes)?;
        self.stage = Stage::Filling(Filling {
            end: progress.end + bytes.len() as u32,
            ..progress
        });
        Ok(())
    }

    /// Ends the file whose bytes came last, at most 16,777,215 of them, under this name. It always
    /// answers Ok, and takes no memory.
    #[tactic(auto, using(crate::proofs::Giving::given_file, crate::proofs::Sizes::file_more))]
    pub fn end_file(&mut self, name: Name) -> Result<(), StoreFault>
        requires filling { AwaitsEnd self.old }
        ensures done { IsOk result }
        ensures filling { (progress : Filling) → IsFilling self.old progress
            → IsFilling self.new (file_ended progress) }
        ensures manifest { manifest_length self.new ≡ manifest_length self.old + (5 + length name) }
        ensures body { (progress : Filling) → IsFilling self.old progress → body_of self.new
            ≡ ((body_of self.old ++ number_bytes 1 (length name)) ++ name)
            ++ number_bytes 4 (progress.end - progress.start) }
        ensures given { (image : Image) (g : Given) → HasGiven self.old image g
            → HasGiven self.new image (with_file name g) }
        ensures continues { Continues self.old self.new }
    {
        let Stage::Filling(progress) = self.stage else {
            // The premise says that it is being filled.
            unreachable!()
        };
        let name = name.as_slice();
        self.body.extend(&u8_bytes(name.len() as u8))?;
        self.body.extend(name)?;
        self.body.extend(&u32_bytes(progress.end - progress.start))?;
        self.stage = Stage::Filling(Filling {
            missing: progress.missing - 1,
            start: progress.end,
            ..progress
        });
        Ok(())
    }

    /// Copies a load of the active configuration, counted from 1, after the contents: its files
    /// from bank to bank, and what the manifest says of it. It takes no memory.
    ///
    /// BankFull where the contents would pass the bank; then nothing was written.
    pub fn keep<K: Disk>(&mut self, disk: &mut K, load: u16) -> Result<(), StoreFault>
        requires filling { AwaitsLoad self.old }
        requires known { IsKeptLoad self.old load }
        requires running { IsRunning (K.state disk.old) }
        // With Ok.
        ensures keeps_load { OnOk result (KeepsLoad self.old self.new (K.state disk.old)
            (K.state disk.new) load) }
        // Refusals.
        ensures refuses { RefusesTooMuch (PassesByKept self.old load) self.old self.new disk.old
            disk.new result }
        // Whatever it answers.
        ensures writes_disk { WritesDisk (K.state disk.old) (K.state disk.new) result }
        ensures keeps { Keeps self.old self.new (K.state disk.old) (K.state disk.new) result }
    {
        let Stage::Filling(progress) = self.stage else {
            // The premise says that it is being filled.
            unreachable!()
        };
        let place = find_load(self.known.as_slice(), load - 1);
        let need = u64::from(progress.end) + place.files_length;
        if need > u64::from(self.size) {
            return Err(StoreFault::BankFull {
                need,
                have: self.size,
            });
        }
        let from = self.bank_at() + place.files as u32;
        let length = place.files_length as u32;
        self.copy(disk, from, self.work() + progress.end, length)?;
        self.add_entry(place, progress, length);
        Ok(())
    }

    /// A load of the active configuration, at this place, was copied after the contents: the
    /// manifest says of it what the active one says.
    fn add_entry(&mut self, place: LoadPlace, progress: Filling, count: u32)
        requires filling { IsFilling self.old progress }
        requires between { (progress.loads < most_loads) × (progress.missing ≡ 0) }
        requires room { progress.end + count ≤ bank_size_of self.old }
        requires entry { KnowsEntryAt self.old place }
        ensures filling { IsFilling self.new (load_kept count progress) }
        ensures body { body_of self.new ≡ body_of self.old ++ knows_entry self.old place }
        ensures active { SameActive self.old self.new }
        ensures gate { is_other_open self.new ≡ is_other_open self.old }
    {
        let entry = &self.known.as_slice()[place.entry..][..place.entry_length];
        match self.body.extend(entry) {
            Ok(()) => {}
            // The body has room for every load that a manifest may have.
            Err(_) => unreachable!(),
        }
        let end = progress.end + count;
        self.stage = Stage::Filling(Filling {
            loads: progress.loads + 1,
            end,
            start: end,
            ..progress
        });
    }

    /// Copies bytes of the active bank into the other one, piece by piece.
    fn copy<K: Disk>(&self, disk: &mut K, from: u32, to: u32, count: u32) -> Result<(), DiskFault>
        requires source { (active_at self.now ≤ from)
            × (from + count ≤ active_at self.now + bank_size_of self.now) }
        requires target { (work_at self.now ≤ to)
            × (to + count ≤ work_at self.now + bank_size_of self.now) }
        requires running { IsRunning (K.state disk.old) }
        ensures goes_on { TimeGoesOn (K.state disk.old) (K.state disk.new) }
        ensures cause { HasCause (K.state disk.old) (K.state disk.new) result }
        ensures near { KeepsNear self.now (K.state disk.old) (K.state disk.new) }
        ensures written { OnOk result (ForSome (K.state disk.old).reads
            (λ image. (K.state disk.new).reads ≡ Some (overlay image to
            (range image from count)))) }
    {
        let mut piece = [0; PIECE];
        let mut done = 0;
        while done < count {
            let length = (count - done).min(PIECE as u32);
            let piece = &mut piece[..length as usize];
            self.copy_piece(disk, from + done, to + done, piece)?;
            done += length;
        }
        Ok(())
    }

    /// Copies as many bytes as the piece takes.
    fn copy_piece<K: Disk>(
        &self,
        disk: &mut K,
        from: u32,
        to: u32,
        piece: &mut [u8],
    ) -> Result<(), DiskFault>
        requires source { from + length piece.old ≤ active_at self.now + bank_size_of self.now }
        requires target { (work_at self.now ≤ to)
            × (to + length piece.old ≤ work_at self.now + bank_size_of self.now) }
        requires running { IsRunning (K.state disk.old) }
        ensures goes_on { TimeGoesOn (K.state disk.old) (K.state disk.new) }
        ensures cause { HasCause (K.state disk.old) (K.state disk.new) result }
        ensures near { KeepsNear self.now (K.state disk.old) (K.state disk.new) }
        ensures written { OnOk result (ForSome (K.state disk.old).reads
            (λ image. (K.state disk.new).reads
            ≡ Some (overlay image to (range image from (length piece.old))))) }
    {
        disk.read(from, piece)?;
        disk.write(to, piece)
    }

    /// Writes the manifest after the contents, and all of the other slot but its gate, and syncs.
    ///
    /// BankFull where contents and manifest together pass the bank; then nothing was written.
    pub fn seal<K: Disk>(&mut self, disk: &mut K) -> Result<(), StoreFault>
        requires filling { IsBetweenLoads self.old }
        requires running { IsRunning (K.state disk.old) }
        // With Ok.
        ensures seals { OnOk result (Seals self.old self.new (K.state disk.old)
            (K.state disk.new)) }
        // Refusals.
        ensures refuses { RefusesTooMuch (PassesBank self.old (manifest_length self.old)) self.old
            self.new disk.old disk.new result }
        // Whatever it answers.
        ensures clock { OnOk result ((K.state disk.old).clock < (K.state disk.new).clock) }
        ensures writes_disk { WritesDisk (K.state disk.old) (K.state disk.new) result }
        ensures keeps { Keeps self.old self.new (K.state disk.old) (K.state disk.new) result }
    {
        let Stage::Filling(progress) = self.stage else {
            // The premise says that it is being filled.
            unreachable!()
        };
        let length = self.body.len() + 4;
        let need = u64::from(progress.end) + length as u64;
        if need > u64::from(self.size) {
            return Err(StoreFault::BankFull {
                need,
                have: self.size,
            });
        }
        self.write_manifest(disk, progress)?;
        self.write_slot(disk, progress.end, length as u32)?;
        // All that the gate lets count has to last before the gate is opened.
        disk.sync()?;
        self.stage = Stage::Sealed(ManifestRange {
            offset: progress.end,
            length: length as u32,
        });
        Ok(())
    }

    /// Names a manifest again that stands in the other bank, at this place and of this many bytes,
    /// in the place of all that [`Store::start_load`] to [`Store::seal`] do: writes all of the
    /// other slot but its gate, and syncs. What the manifest says of its loads is read, so that
    /// they can be kept later. It takes no memory.
    pub fn readopt<K: Disk>(
        &mut self,
        disk: &mut K,
        place: u32,
        length: u32,
    ) -> Result<(), StoreFault>
        requires filling { IsFilling self.old nothing_filled }
        requires manifest { CanReadopt self.old (K.state disk.old) place length }
        requires running { IsRunning (K.state disk.old) }
        // With Ok.
        ensures readopts { OnOk result (Readopts self.old self.new (K.state disk.old)
            (K.state disk.new) place length) }
        // Refusals.
        ensures refuses { OnlyFails result (IsFilling self.new nothing_filled
            × Continues self.old self.new) }
        // Whatever it answers.
        ensures clock { OnOk result ((K.state disk.old).clock < (K.state disk.new).clock) }
        ensures writes_disk { WritesDisk (K.state disk.old) (K.state disk.new) result }
        ensures keeps { Keeps self.old self.new (K.state disk.old) (K.state disk.new) result }
    {
        self.write_slot(disk, place, length)?;
        // All that the gate lets count has to last before the gate is opened.
        disk.sync()?;
        let at = self.work() + place;
        read_entries(disk, at, length, &mut self.body)?;
        self.stage = Stage::Sealed(ManifestRange {
            offset: place,
            length,
        });
        Ok(())
    }

    /// Writes the manifest after the contents, in layout 2: its mark, how many loads there are, and
    /// what the body says of each.
    fn write_manifest<K: Disk>(&self, disk: &mut K, progress: Filling) -> Result<(), DiskFault>
        requires filling { IsFilling self.now progress }
        requires within { progress.end + manifest_length self.now ≤ bank_size_of self.now }
        requires running { IsRunning (K.state disk.old) }
        ensures goes_on { TimeGoesOn (K.state disk.old) (K.state disk.new) }
        ensures cause { HasCause (K.state disk.old) (K.state disk.new) result }
        ensures near { KeepsNear self.now (K.state disk.old) (K.state disk.new) }
        ensures written { OnOk result (ForSome (K.state disk.old).reads
            (λ image. (K.state disk.new).reads ≡ Some (with_manifest self.now progress image))) }
    {
        let at = self.work() + progress.end;
        disk.write(at, &head_of(progress.loads))?;
        disk.write(at + 4, self.body.as_slice())
    }

    /// Writes the body of the other slot, all but its gate: that its bank is active with the next
    /// sequence number, and where in it the manifest begins and how many bytes it has.
    fn write_slot<K: Disk>(&self, disk: &mut K, offset: u32, length: u32) -> Result<(), DiskFault>
        requires shut { is_other_open self.now ≡ false }
        requires goes_on { active_sequence self.now < 4294967295 }
        requires running { IsRunning (K.state disk.old) }
        ensures goes_on { TimeGoesOn (K.state disk.old) (K.state disk.new) }
        ensures cause { HasCause (K.state disk.old) (K.state disk.new) result }
        ensures near { KeepsNear self.now (K.state disk.old) (K.state disk.new) }
        ensures written { OnOk result (ForSome (K.state disk.old).reads
            (λ image. (K.state disk.new).reads ≡ Some (with_slot self.now offset length image))) }
    {
        let at = self.other() + SEQUENCE_IN_SLOT;
        disk.write(at, &self.slot_bytes(offset, length))
    }

    /// The body of the other slot: the next sequence number, the other bank, and the manifest's
    /// range in it.
    fn slot_bytes(&self, offset: u32, length: u32) -> [u8; 13]
        requires { active_sequence self.now < 4294967295 }
        ensures { result ≡ slot_body self.now offset length }
    {
        let sequence = self.active.sequence + 1;
        let says = SlotFields {
            gate: SHUT,
            sequence,
            bank: self.active.bank.other().number(),
            manifest: ManifestRange { offset, length },
        };
        says.encode_body()
    }

    /// Opens the gate of the other slot and syncs. With Ok the new configuration is active, and the
    /// store is that of the disk on which it does.
    pub fn activate<K: Disk>(&mut self, disk: &mut K) -> Result<(), StoreFault>
        requires sealed { IsSealed self.old }
        requires running { IsRunning (K.state disk.old) }
        // With Ok.
        ensures activates { OnOk result (Activates self.old self.new (K.state disk.old)
            (K.state disk.new)) }
        // Refusals.
        ensures refuses { OnlyFails result (self.new ≡ self.old) }
        // Whatever it answers.
        ensures any_moment { (s : StandingView) (loads : List LoadView)
            → CanActivate self.old (K.state disk.old) s loads
            → LeavesOnly (K.state disk.old).clock (IsOldOrNew s (configured s loads))
            (K.state disk.new) }
        ensures adds { (s : StandingView) (loads : List LoadView)
            → CanActivate self.old (K.state disk.old) s loads
            → AddsOnly (K.state disk.old) (K.state disk.new) (IsOldOrNew s (configured s loads)) }
        ensures clock { OnOk result ((K.state disk.old).clock < (K.state disk.new).clock) }
        ensures writes_disk { WritesDisk (K.state disk.old) (K.state disk.new) result }
    {
        let Stage::Sealed(manifest) = self.stage else {
            // The premise says that it is sealed.
            unreachable!()
        };
        let slot = self.other();
        // One byte in a write of its own: after a power loss the slot is open or it isn't.
        disk.write(slot, &[OPEN])?;
        // From here on the old configuration can't come back.
        disk.sync()?;
        mem::swap(&mut self.known, &mut self.body);
        self.forget();
        self.active = Active {
            slot: self.active.slot.other(),
            bank: self.active.bank.other(),
            sequence: self.active.sequence + 1,
            manifest,
        };
        self.other_is_open = true;
        Ok(())
    }

    /// Gives an installation up. What was written stays in the other bank and is written over by
    /// the next one; the other slot stays shut. Where none has begun, nothing changes.
    #[tactic(auto, using(crate::proofs::Continuing::continues_idle))]
    pub fn abandon(&mut self)
        ensures idle { IsIdle self.new }
        ensures prepared { ¬ IsIdle self.old → IsPrepared self.new }
        ensures unchanged { IsIdle self.old → self.new ≡ self.old }
        ensures continues { Continues self.old self.new }
    {
        if !matches!(self.stage, Stage::Idle) {
            self.forget();
        }
    }

    /// No installation is begun.
    fn forget(&mut self)
        ensures idle { IsIdle self.new }
        ensures active { SameActive self.old self.new }
        ensures gate { is_other_open self.new ≡ is_other_open self.old }
        ensures spare { spare_of self.new ≡ spare_of self.old + (manifest_length self.old - 4) }
        ensures known { self.new.known ≡ self.old.known }
    {
        self.body.clear();
        self.stage = Stage::Idle;
    }

    /// The active sequence number.
    pub fn sequence(&self) -> u32
        ensures { result ≡ active_sequence self.now }
    {
        self.active.sequence
    }

    /// The number of the active bank, 0 or 1.
    pub fn bank(&self) -> u8
        ensures { result ≡ active_bank self.now }
    {
        self.active.bank.number()
    }

    /// The offset of the other slot.
    fn other(&self) -> u32
        ensures { result ≡ other_slot (active_slot self.now) }
    {
        self.active.slot.other().offset()
    }

    /// The offset of the active bank.
    fn bank_at(&self) -> u32
        ensures offset { result ≡ active_at self.now }
        ensures within { result + bank_size_of self.now ≤ 134225920 }
    {
        self.active.bank.offset(self.size)
    }

    /// The offset of the other bank.
    fn work(&self) -> u32
        ensures offset { result ≡ work_at self.now }
        ensures within { result + bank_size_of self.now ≤ 134225920 }
    {
        self.active.bank.other().offset(self.size)
    }
}
