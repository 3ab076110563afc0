//! What is found of a list or a batch.
ghost use Rattle.std.specs.Prelude.{◌≡◌, Some, IfOk};
ghost use Rattle.batch_lists.specs.Batch.{batch, batch_view};
ghost use Rattle.batch_lists.specs.Batches.{batches_list, batches_list_view};
ghost use Rattle.media_lists.specs.Files.{files_list, files_list_view};
ghost use Rattle.media_lists.specs.Loads.{loads_list, loads_list_view};
ghost use Rattle.media_check.specs.Kept.{found_in, found_view};
ghost use Rattle.media_check.specs.Sets.{IsFoundFiles};

use batch_lists::{Batch, BatchFault, BatchesFault, BatchesList, batch_laws, batches_list_laws};
use load_base::NoMemory;
use media_lists::{FilesList, ListFault, LoadsList, files_list_laws, loads_list_laws};
use std::alloc::Global;

/// What is found of a list or a batch of a media set.
#[derive(Drop)]
pub enum Found<L, F> {
    /// There is no such file.
    Missing,
    /// It fails first at this fault, which is never out of memory.
    Refused(F),
    /// What it says.
    Read(L),
}

/// What is found of a list of loads that has these bytes.
pub(crate) fn loads_in(alloc: Global, bytes: &[u8]) -> Result<Found<LoadsList, ListFault>, NoMemory>
    ensures { IfOk result (λ found. found_view loads_list_view found
        ≡ found_in loads_list (Some bytes.now)) }
{
    // For the proof: does nothing.
    loads_list_laws();
    match LoadsList::decode(alloc, bytes) {
        Ok(list) => Ok(Found::Read(list)),
        Err(ListFault::Memory) => Err(NoMemory),
        Err(fault) => Ok(Found::Refused(fault)),
    }
}

/// What is found of a list of files that has these bytes.
pub(crate) fn files_in(alloc: Global, bytes: &[u8]) -> Result<Found<FilesList, ListFault>, NoMemory>
    ensures found { IfOk result (λ found. found_view files_list_view found
        ≡ found_in files_list (Some bytes.now)) }
    ensures spelled { IfOk result (λ found. IsFoundFiles (found_view files_list_view found)) }
{
    // For the proof: does nothing.
    files_list_laws();
    match FilesList::decode(alloc, bytes) {
        Ok(list) => Ok(Found::Read(list)),
        Err(ListFault::Memory) => Err(NoMemory),
        Err(fault) => Ok(Found::Refused(fault)),
    }
}

/// What is found of a list of batches that has these bytes.
pub(crate) fn batches_in(
    alloc: Global,
    bytes: &[u8],
) -> Result<Found<BatchesList, BatchesFault>, NoMemory>
    ensures { IfOk result (λ found. found_view batches_list_view found
        ≡ found_in batches_list (Some bytes.now)) }
{
    // For the proof: does nothing.
    batches_list_laws();
    match BatchesList::decode(alloc, bytes) {
        Ok(list) => Ok(Found::Read(list)),
        Err(BatchesFault::Memory) => Err(NoMemory),
        Err(fault) => Ok(Found::Refused(fault)),
    }
}

/// What is found of a batch that has these bytes.
pub(crate) fn batch_in(alloc: Global, bytes: &[u8]) -> Result<Found<Batch, BatchFault>, NoMemory>
    ensures { IfOk result (λ found. found_view batch_view found
        ≡ found_in batch (Some bytes.now)) }
{
    // For the proof: does nothing.
    batch_laws();
    match Batch::decode(alloc, bytes) {
        Ok(value) => Ok(Found::Read(value)),
        Err(BatchFault::Memory) => Err(NoMemory),
        Err(fault) => Ok(Found::Refused(fault)),
    }
}
