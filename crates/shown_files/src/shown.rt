//! A file as it is shown.
ghost use Rattle.std.specs.Prelude.{IfOk};
ghost use Rattle.field_grammar.specs.Grammar.{Fault};
ghost use Rattle.load_header.specs.Header.{header};
ghost use Rattle.load_header.specs.declared.fault.HeaderFault.TheVariants as headers;
ghost use Rattle.load_protocol_files.specs.declared.fault.FileFault.TheVariants as files;
ghost use Rattle.shown_files.specs.declared.kind.ShownKind.TheVariants as kinds;
ghost use Rattle.shown_files.specs.Shown.{IsShown};

use crate::batches::{batch_text, batches_list_text};
use crate::header::header_text;
use crate::kind::ShownKind;
use crate::lists::{files_list_text, loads_list_text};
use crate::protocol::{lci_text, lcl_text, lcs_text, lui_text, lur_text, lus_text};
use batch_lists::{Batch, BatchFault, BatchesFault, BatchesList};
use load_base::{Bytes, NoMemory, Text};
use load_header::{HeaderFault, LoadHeader};
use load_protocol_files::{FileFault, Lci, Lcl, Lcs, Lui, Lur, Lus};
use media_lists::{FilesList, ListFault, LoadsList};
use printed_text::Printed;
use std::alloc::Global;

/// What is shown of a file.
#[derive(Drop)]
pub enum Shown {
    /// Its fields, a line each.
    Fields(Bytes),
    /// The text of its first fault: the code, and after it the fault's fields.
    Fault(Text),
}

/// What is shown of these bytes as a file of this kind.
pub fn show(alloc: Global, kind: ShownKind, bytes: &[u8]) -> Result<Shown, NoMemory>
    ensures { IfOk result (λ shown. IsShown kind bytes.now shown) }
{
    match kind {
        ShownKind::Header => shown_header(alloc, bytes),
        ShownKind::LoadsList => shown_loads_list(alloc, bytes),
        ShownKind::FilesList => shown_files_list(alloc, bytes),
        ShownKind::BatchesList => shown_batches_list(alloc, bytes),
        ShownKind::Batch => shown_batch(alloc, bytes),
        ShownKind::Lci => shown_lci(alloc, bytes),
        ShownKind::Lcl => shown_lcl(alloc, bytes),
        ShownKind::Lcs => shown_lcs(alloc, bytes),
        ShownKind::Lui => shown_lui(alloc, bytes),
        ShownKind::Lur => shown_lur(alloc, bytes),
        ShownKind::Lus => shown_lus(alloc, bytes),
    }
}

fn shown_header(alloc: Global, bytes: &[u8]) -> Result<Shown, NoMemory>
    ensures { IfOk result (λ shown. IsShown kinds.Header bytes.now shown) }
{
    match LoadHeader::decode(alloc, bytes) {
        Ok(header) => Ok(Shown::Fields(header_text(alloc, bytes, &header)?)),
        Err(HeaderFault::Memory) => Err(NoMemory),
        Err(fault) => Ok(Shown::Fault(fault.text(alloc)?)),
    }
}

fn shown_loads_list(alloc: Global, bytes: &[u8]) -> Result<Shown, NoMemory>
    ensures { IfOk result (λ shown. IsShown kinds.LoadsList bytes.now shown) }
{
    match LoadsList::decode(alloc, bytes) {
        Ok(list) => Ok(Shown::Fields(loads_list_text(alloc, bytes, &list)?)),
        Err(ListFault::Memory) => Err(NoMemory),
        Err(fault) => Ok(Shown::Fault(fault.text(alloc)?)),
    }
}

fn shown_files_list(alloc: Global, bytes: &[u8]) -> Result<Shown, NoMemory>
    ensures { IfOk result (λ shown. IsShown kinds.FilesList bytes.now shown) }
{
    match FilesList::decode(alloc, bytes) {
        Ok(list) => Ok(Shown::Fields(files_list_text(alloc, bytes, &list)?)),
        Err(ListFault::Memory) => Err(NoMemory),
        Err(fault) => Ok(Shown::Fault(fault.text(alloc)?)),
    }
}

fn shown_batches_list(alloc: Global, bytes: &[u8]) -> Result<Shown, NoMemory>
    ensures { IfOk result (λ shown. IsShown kinds.BatchesList bytes.now shown) }
{
    match BatchesList::decode(alloc, bytes) {
        Ok(list) => Ok(Shown::Fields(batches_list_text(alloc, bytes, &list)?)),
        Err(BatchesFault::Memory) => Err(NoMemory),
        Err(fault) => Ok(Shown::Fault(fault.text(alloc)?)),
    }
}

fn shown_batch(alloc: Global, bytes: &[u8]) -> Result<Shown, NoMemory>
    ensures { IfOk result (λ shown. IsShown kinds.Batch bytes.now shown) }
{
    match Batch::decode(alloc, bytes) {
        Ok(batch) => Ok(Shown::Fields(batch_text(alloc, bytes, &batch)?)),
        Err(BatchFault::Memory) => Err(NoMemory),
        Err(fault) => Ok(Shown::Fault(fault.text(alloc)?)),
    }
}

fn shown_lci(alloc: Global, bytes: &[u8]) -> Result<Shown, NoMemory>
    ensures { IfOk result (λ shown. IsShown kinds.Lci bytes.now shown) }
{
    match Lci::decode(alloc, bytes) {
        Ok(file) => Ok(Shown::Fields(lci_text(alloc, &file)?)),
        Err(FileFault::Memory) => Err(NoMemory),
        Err(fault) => Ok(Shown::Fault(fault.text(alloc)?)),
    }
}

fn shown_lcl(alloc: Global, bytes: &[u8]) -> Result<Shown, NoMemory>
    ensures { IfOk result (λ shown. IsShown kinds.Lcl bytes.now shown) }
{
    match Lcl::decode(alloc, bytes) {
        Ok(file) => Ok(Shown::Fields(lcl_text(alloc, &file)?)),
        Err(FileFault::Memory) => Err(NoMemory),
        Err(fault) => Ok(Shown::Fault(fault.text(alloc)?)),
    }
}

fn shown_lcs(alloc: Global, bytes: &[u8]) -> Result<Shown, NoMemory>
    ensures { IfOk result (λ shown. IsShown kinds.Lcs bytes.now shown) }
{
    match Lcs::decode(alloc, bytes) {
        Ok(file) => Ok(Shown::Fields(lcs_text(alloc, &file)?)),
        Err(FileFault::Memory) => Err(NoMemory),
        Err(fault) => Ok(Shown::Fault(fault.text(alloc)?)),
    }
}

fn shown_lui(alloc: Global, bytes: &[u8]) -> Result<Shown, NoMemory>
    ensures { IfOk result (λ shown. IsShown kinds.Lui bytes.now shown) }
{
    match Lui::decode(alloc, bytes) {
        Ok(file) => Ok(Shown::Fields(lui_text(alloc, &file)?)),
        Err(FileFault::Memory) => Err(NoMemory),
        Err(fault) => Ok(Shown::Fault(fault.text(alloc)?)),
    }
}

fn shown_lur(alloc: Global, bytes: &[u8]) -> Result<Shown, NoMemory>
    ensures { IfOk result (λ shown. IsShown kinds.Lur bytes.now shown) }
{
    match Lur::decode(alloc, bytes) {
        Ok(file) => Ok(Shown::Fields(lur_text(alloc, &file)?)),
        Err(FileFault::Memory) => Err(NoMemory),
        Err(fault) => Ok(Shown::Fault(fault.text(alloc)?)),
    }
}

fn shown_lus(alloc: Global, bytes: &[u8]) -> Result<Shown, NoMemory>
    ensures { IfOk result (λ shown. IsShown kinds.Lus bytes.now shown) }
{
    match Lus::decode(alloc, bytes) {
        Ok(file) => Ok(Shown::Fields(lus_text(alloc, &file)?)),
        Err(FileFault::Memory) => Err(NoMemory),
        Err(fault) => Ok(Shown::Fault(fault.text(alloc)?)),
    }
}
