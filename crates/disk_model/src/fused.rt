//! A disk whose power can be lost, over any steady disk: it knows the ranges that weren't synced,
//! and spoils them when it is restarted after a loss.
ghost use Rattle.std.specs.Prelude.{◌≡◌, ◌↔◌, ◌+◌, ◌-◌, ◌≤◌, ◌<◌, false, true, Some, Err};
ghost use Rattle.std.specs.Prelude.{IsTrue, length, slice_index, OnOk, OnErr, is_err};
ghost use Rattle.std.specs.Option.{ForSome};
ghost use Rattle.load_base.specs.Counts.{Rose};
ghost use Rattle.disk_model.specs.Arming.{Arms};
ghost use Rattle.disk_model.specs.Image.{range, overlay};
ghost use Rattle.disk_model.specs.State.{IsSettled, Closed, Elapses, HasCause, KeepsClosed};
ghost use Rattle.disk_model.specs.State.{KeepsCounts, OnlyReads, Torn};
ghost use Rattle.disk_model.specs.Fused.{AreUnsynced, CountsDown, MayElapse, Spoils};
ghost use Rattle.disk_model.specs.Fused.{KeepsLosses, KeepsArmings, generator_after};
ghost use Rattle.disk_model.specs.declared.disk.DiskFault.TheVariants.{Failed};

use crate::{Disk, DiskFault, Power, SIZE};
use load_base::FaultCount;
use std::marker::Model;

/// The most ranges that are kept.
const MOST: usize = 16;

/// Bytes that are spoiled in one write.
const PIECE: usize = 64;

/// A disk over `inner` whose power can be lost (docs/DISK.md, "The simulated power loss").
///
/// It keeps at most 16 ranges that weren't synced, syncs `inner` before a 17th, and takes no
/// memory of its own.
#[derive(Drop)]
pub struct Fused<K: Disk + Drop> {
    inner: K,
    offsets: [u32; MOST],
    lengths: [u32; MOST],
    count: usize,
    stopped: bool,
    lost: bool,
    choice: u32,
    left: u32,
    calls: u32,
    pick: u32,
    losses: FaultCount,
    armings: FaultCount,
}

impl<K: Disk + Drop> Model for Fused<K> {
    ghost use Rattle.disk_model.specs.Fused.{FusedOf, fused_code, IsFused};

    ghost Value = { FusedOf K };

    ghost coded = { fused_code K.code };

    ghost view = { λ f. record {
      inner = f.inner;
      offsets = f.offsets;
      lengths = f.lengths;
      count = f.count;
      stopped = f.stopped;
      lost = f.lost;
      choice = f.choice;
      left = f.left;
      calls = f.calls;
      pick = f.pick;
      losses = f.losses;
      armings = f.armings;
    } };

    ghost invariant = { λ f. IsFused (K.state f.inner) f.offsets f.lengths f.count f.stopped
        f.lost };
}

impl<K: Disk + Drop> Fused<K> {
    ghost use Rattle.disk_model.specs.Fused.{state_of, RoseOnce, WritesRange};

    /// No range is unsynced, and no power loss armed.
    pub fn new(inner: K) -> Fused<K>
        requires steady { (K.state inner).steady ≡ true }
        requires running { (K.state inner).stopped ≡ false }
        // It runs and was never armed; all else is as on the disk below.
        ensures inner { result.inner ≡ inner }
        ensures running { (state_of K.state result).stopped ≡ false }
        ensures armings { (state_of K.state result).armings ≡ 0 }
        ensures reads { (state_of K.state result).reads ≡ (K.state inner).reads }
        ensures only_image { IsSettled (K.state inner) → IsSettled (state_of K.state result) }
        ensures counts { ((state_of K.state result).faults ≡ (K.state inner).faults)
            × ((state_of K.state result).refusals ≡ (K.state inner).refusals) }
    {
        Fused {
            inner,
            offsets: [0; MOST],
            lengths: [0; MOST],
            count: 0,
            stopped: false,
            lost: false,
            choice: 0,
            left: 0,
            calls: 0,
            pick: 0,
            losses: FaultCount::new(),
            armings: FaultCount::new(),
        }
    }

    /// Writes, and keeps the range as unsynced.
    fn write_range(&mut self, at: u32, bytes: &[u8]) -> Result<(), DiskFault>
        requires running { self.old.stopped ≡ false }
        requires within { at + length bytes.now ≤ SIZE }
        ensures writes { WritesRange K.state at bytes.now self.old self.new result }
    {
        if is_end(&self.offsets, &self.lengths, self.count, at) {
            return self.write_on(at, bytes);
        }
        if self.count == MOST {
            self.sync_all()?;
        }
        self.write_apart(at, bytes)
    }

    /// Writes where the last range ends.
    fn write_on(&mut self, at: u32, bytes: &[u8]) -> Result<(), DiskFault>
        requires running { self.old.stopped ≡ false }
        requires within { at + length bytes.now ≤ SIZE }
        requires some { 0 < self.old.count }
        requires end { slice_index self.old.offsets (self.old.count - 1)
            + slice_index self.old.lengths (self.old.count - 1) ≡ at }
        ensures writes { WritesRange K.state at bytes.now self.old self.new result }
    {
        let outcome = self.inner.write(at, bytes);
        self.stopped = outcome.is_err();
        if !self.stopped {
            let (index, length) = (self.count - 1, bytes.len() as u32);
            lengthen(
                &self.inner,
                &mut self.offsets,
                &mut self.lengths,
                index,
                at,
                length,
            );
        }
        outcome
    }

    /// Writes a range more.
    fn write_apart(&mut self, at: u32, bytes: &[u8]) -> Result<(), DiskFault>
        requires running { self.old.stopped ≡ false }
        requires within { at + length bytes.now ≤ SIZE }
        requires few { self.old.count < MOST }
        ensures writes { WritesRange K.state at bytes.now self.old self.new result }
    {
        let outcome = self.inner.write(at, bytes);
        self.stopped = outcome.is_err();
        if !self.stopped {
            let length = bytes.len() as u32;
            keep(
                &self.inner,
                &mut self.offsets,
                &mut self.lengths,
                self.count,
                at,
                length,
            );
            self.count += 1;
        }
        outcome
    }

    /// Syncs, after which no range is unsynced.
    fn sync_all(&mut self) -> Result<(), DiskFault>
        requires running { self.old.stopped ≡ false }
        ensures kept { OnOk result ((K.state self.new.inner).reads
            ≡ (K.state self.old.inner).reads) }
        ensures settled { OnOk result (IsSettled (K.state self.new.inner)) }
        ensures elapses { Elapses (K.state self.old.inner) (K.state self.new.inner)
            (K.state self.old.inner).now result }
        ensures cause { HasCause (K.state self.old.inner) (K.state self.new.inner) result }
        ensures stopped { self.new.stopped ≡ is_err result }
        ensures none { self.new.count ≡ 0 }
        ensures keeps { KeepsLosses self.old self.new }
    {
        self.offsets = [0; MOST];
        self.lengths = [0; MOST];
        self.count = 0;
        let outcome = self.inner.sync();
        self.stopped = outcome.is_err();
        outcome
    }

    /// Where power was lost, what wasn't synced is spoiled.
    fn spoil_lost(&mut self) -> Result<(), DiskFault>
        ensures no_image { MayElapse (K.state self.old.inner) (K.state self.new.inner) }
        ensures counts { OnOk result (KeepsCounts (K.state self.old.inner)
            (K.state self.new.inner)) }
        ensures cause { OnErr result (HasCause (K.state self.old.inner) (K.state self.new.inner)
            result) }
        ensures stopped { OnErr result (self.new.stopped ≡ true) }
        ensures keeps { KeepsLosses self.old self.new }
    {
        if !self.lost {
            return Ok(());
        }
        self.lost = false;
        let (count, choice) = (self.count, self.choice);
        let outcome = spoil(&mut self.inner, &self.offsets, &self.lengths, count, choice);
        self.stopped = outcome.is_err();
        outcome
    }

    /// Restarts the disk below, after which no range is unsynced.
    fn restart_inner(&mut self) -> Result<(), DiskFault>
        ensures settled { OnOk result (IsSettled (K.state self.new.inner)) }
        ensures elapses { Elapses (K.state self.old.inner) (K.state self.new.inner)
            (K.state self.old.inner).now result }
        ensures cause { HasCause (K.state self.old.inner) (K.state self.new.inner) result }
        ensures stopped { self.new.stopped ≡ is_err result }
        ensures keeps { KeepsLosses self.old self.new }
    {
        self.lost = false;
        self.offsets = [0; MOST];
        self.lengths = [0; MOST];
        self.count = 0;
        let outcome = self.inner.restart();
        self.stopped = outcome.is_err();
        outcome
    }

    /// Power is lost at a call, which fails.
    fn lose(&mut self) -> Result<(), DiskFault>
        requires running { (K.state self.old.inner).stopped ≡ false }
        ensures inner { self.new.inner ≡ self.old.inner }
        ensures stopped { self.new.stopped ≡ true }
        ensures losses { RoseOnce self.old.losses self.new.losses }
        ensures keeps { KeepsArmings self.old self.new }
        ensures left { self.new.left ≡ self.old.left }
        ensures failed { result ≡ Err Failed }
    {
        self.lost = true;
        self.choice = self.pick;
        self.stopped = true;
        self.losses.rise();
        Err(DiskFault::Failed)
    }
}

impl<K: Disk + Drop> Disk for Fused<K> {
    ghost use Rattle.disk_model.specs.Fused.{state_of};

    ghost state = { state_of K.state };

    ghost reads_now = { λ f. K.reads_now f.inner };

    ghost counts_now = { λ f. K.counts_now f.inner };

    ghost only_now = { λ f. K.only_now f.inner };

    ghost wider = { λ f. K.wider f.inner };

    ghost splits = { λ f. K.splits f.inner };

    fn read(&mut self, at: u32, buf: &mut [u8]) -> Result<(), DiskFault>
        requires running { (state_of K.state self.old).stopped ≡ false }
        requires within { at + length buf.old ≤ SIZE }
        ensures bytes { OnOk result (ForSome (state_of K.state self.old).reads
            (λ image. buf.new ≡ range image at (length buf.old))) }
        ensures kept { OnOk result ((state_of K.state self.new).reads
            ≡ (state_of K.state self.old).reads) }
        ensures only_reads { OnlyReads (state_of K.state self.old) (state_of K.state self.new) }
        ensures cause { HasCause (state_of K.state self.old) (state_of K.state self.new) result }
        ensures armed { CountsDown K.state self.old self.new result }
    {
        if is_due(&mut self.left) {
            return self.lose();
        }
        let outcome = self.inner.read(at, buf);
        self.stopped = outcome.is_err();
        outcome
    }

    fn write(&mut self, at: u32, bytes: &[u8]) -> Result<(), DiskFault>
        requires running { (state_of K.state self.old).stopped ≡ false }
        requires within { at + length bytes.now ≤ SIZE }
        ensures bytes { OnOk result (ForSome (state_of K.state self.old).reads
            (λ image. (state_of K.state self.new).reads ≡ Some (overlay image at bytes.now))) }
        ensures torn { OnOk result (Closed (state_of K.state self.new) at (length bytes.now)) }
        ensures closed { KeepsClosed (state_of K.state self.old) (state_of K.state self.new) }
        ensures elapses { Elapses (state_of K.state self.old) (state_of K.state self.new)
            (Torn at (length bytes.now) (state_of K.state self.old).now) result }
        ensures cause { HasCause (state_of K.state self.old) (state_of K.state self.new) result }
        ensures armed { CountsDown K.state self.old self.new result }
    {
        let due = is_due(&mut self.left);
        let outcome = self.write_range(at, bytes);
        if due && outcome.is_ok() {
            return self.lose();
        }
        outcome
    }

    fn sync(&mut self) -> Result<(), DiskFault>
        requires running { (state_of K.state self.old).stopped ≡ false }
        ensures kept { OnOk result ((state_of K.state self.new).reads
            ≡ (state_of K.state self.old).reads) }
        ensures settled { OnOk result (IsSettled (state_of K.state self.new)) }
        ensures elapses { Elapses (state_of K.state self.old) (state_of K.state self.new)
            (state_of K.state self.old).now result }
        ensures cause { HasCause (state_of K.state self.old) (state_of K.state self.new) result }
        ensures armed { CountsDown K.state self.old self.new result }
    {
        if is_due(&mut self.left) {
            return self.lose();
        }
        // What was written lasts from here on, so that no range may be left to spoil.
        self.sync_all()
    }

    fn restart(&mut self) -> Result<(), DiskFault>
        ensures settled { OnOk result (IsSettled (state_of K.state self.new)) }
        ensures elapses { Elapses (state_of K.state self.old) (state_of K.state self.new)
            (state_of K.state self.old).now result }
        ensures cause { HasCause (state_of K.state self.old) (state_of K.state self.new) result }
        ensures left { self.new.left ≡ self.old.left }
    {
        self.spoil_lost()?;
        self.restart_inner()
    }
}

impl<K: Disk + Drop> Power for Fused<K> {
    ghost use Rattle.disk_model.specs.Fused.{state_of};

    fn arm(&mut self, calls: u32, pick: u32)
        ensures arms { Arms calls pick (state_of K.state self.old) (state_of K.state self.new) }
        ensures left { self.new.left ≡ calls }
    {
        self.armings.rise();
        self.calls = calls;
        self.pick = pick;
        self.left = calls;
        if calls == 0 && !self.stopped {
            self.lost = true;
            self.choice = pick;
            self.stopped = true;
        }
    }
}

/// One call more: whether the power loss that is armed comes at it.
fn is_due(left: &mut u32) -> bool
    ensures due { IsTrue result ↔ (left.old ≡ 1) }
    ensures counts { left.new ≡ left.old - 1 }
{
    let due = *left == 1;
    *left = left.saturating_sub(1);
    due
}

/// Whether the last range ends at this offset.
fn is_end(offsets: &[u32; MOST], lengths: &[u32; MOST], count: usize, at: u32) -> bool
    requires counted { count ≤ MOST }
    ensures some { result ≡ true → 0 < count }
    ensures end { result ≡ true
        → slice_index offsets.now (count - 1) + slice_index lengths.now (count - 1) ≡ at }
{
    if count == 0 {
        return false;
    }
    let offset = offsets[count - 1];
    offset <= at && at - offset == lengths[count - 1]
}

/// One range is at this offset, and so long.
fn keep<K: Disk>(
    disk: &K,
    offsets: &mut [u32; MOST],
    lengths: &mut [u32; MOST],
    index: usize,
    at: u32,
    length: u32,
)
    requires ranges { AreUnsynced (K.state disk.now) offsets.old lengths.old }
    requires number { index < MOST }
    requires within { at + length ≤ SIZE }
    requires closed { Closed (K.state disk.now) at length }
    ensures { AreUnsynced (K.state disk.now) offsets.new lengths.new }
{
    offsets[index] = at;
    lengths[index] = length;
}

/// The range of this number is so much longer.
fn lengthen<K: Disk>(
    disk: &K,
    offsets: &mut [u32; MOST],
    lengths: &mut [u32; MOST],
    index: usize,
    at: u32,
    length: u32,
)
    requires ranges { AreUnsynced (K.state disk.now) offsets.old lengths.old }
    requires number { index < MOST }
    requires end { slice_index offsets.old index + slice_index lengths.old index ≡ at }
    requires within { at + length ≤ SIZE }
    requires closed { Closed (K.state disk.now) at length }
    ensures { AreUnsynced (K.state disk.now) offsets.new lengths.new }
{
    let offset = offsets[index];
    let whole = lengths[index] + length;
    keep(disk, offsets, lengths, index, offset, whole);
}

/// Spoils the ranges that weren't synced, the one of number i by `choice` + i.
fn spoil<K: Disk>(
    disk: &mut K,
    offsets: &[u32; MOST],
    lengths: &[u32; MOST],
    count: usize,
    choice: u32,
) -> Result<(), DiskFault>
    requires running { (K.state disk.old).stopped ≡ false }
    requires steady { (K.state disk.old).steady ≡ true }
    requires counted { count ≤ MOST }
    requires ranges { AreUnsynced (K.state disk.old) offsets.now lengths.now }
    ensures { Spoils (K.state disk.old) (K.state disk.new) result }
{
    'each: for index in 0..count {
        spoil_range(
            disk,
            offsets[index],
            lengths[index],
            choice.wrapping_add(index as u32),
        )?;
    }
    Ok(())
}

/// A range stays, becomes zeros, or bytes of the generator that starts at `choice`.
fn spoil_range<K: Disk>(disk: &mut K, at: u32, length: u32, choice: u32) -> Result<(), DiskFault>
    requires running { (K.state disk.old).stopped ≡ false }
    requires steady { (K.state disk.old).steady ≡ true }
    requires within { at + length ≤ SIZE }
    requires range { Closed (K.state disk.old) at length }
    ensures { Spoils (K.state disk.old) (K.state disk.new) result }
{
    let mut done = 0;
    let mut number = choice;
    let kind = choice % 3;
    'pieces: while kind != 0 && done < length {
        let mut piece = [0; PIECE];
        if kind == 2 {
            generate(&mut number, &mut piece);
        }
        let count = (length - done).min(PIECE as u32);
        spoil_part(disk, at, length, at + done, &piece[..count as usize])?;
        done += count;
    }
    Ok(())
}

/// Writes over a part of a range.
fn spoil_part<K: Disk>(
    disk: &mut K,
    at: u32,
    size: u32,
    from: u32,
    bytes: &[u8],
) -> Result<(), DiskFault>
    requires running { (K.state disk.old).stopped ≡ false }
    requires steady { (K.state disk.old).steady ≡ true }
    requires within { at + size ≤ SIZE }
    requires begins { at ≤ from }
    requires ends { from + length bytes.now ≤ at + size }
    requires range { Closed (K.state disk.old) at size }
    ensures { Spoils (K.state disk.old) (K.state disk.new) result }
{
    disk.write(from, bytes)
}

/// The next bytes of the generator.
fn generate(number: &mut u32, piece: &mut [u8; PIECE]) {
    for byte in piece.iter_mut() {
        *number = next_number(*number);
        *byte = (*number >> 24) as u8;
    }
}

#[tactic(auto, unfolding(crate::specs::Fused::generator_after))]
fn next_number(number: u32) -> u32
    ensures { result ≡ generator_after number }
{
    number.wrapping_mul(1_664_525).wrapping_add(1_013_904_223)
}
