//! What every other crate stands on: lists with spare capacity, the texts of loads and targets, the
//! configuration of a target, the host that keeps files, and the sink that output goes to.
#![tactic(auto)]

mod config;
mod failing;
mod folder;
mod host;
mod ident;
mod interrupted;
mod laws;
mod list;
mod mem_host;
mod name;
mod padded;
mod part_text;
mod replacing;
mod sink;
mod std_host;
mod text;

pub use config::{Config, Load, StoredFile};
pub use failing::{FailingCalls, FaultCount};
pub use folder::{folder_of, sync_folder, sync_for_reading};
pub use host::{Host, LONGEST_FILE, ReadFault};
pub use ident::{Ident, IdentFault};
pub use interrupted::read_some;
pub use laws::{equality_laws, list_equality_law, text_laws};
pub use list::{Bytes, List, NoMemory};
pub use mem_host::MemHost;
pub use name::{Name, NameFault};
pub use part_text::{PartText, PartTextFault};
pub use sink::{MemSink, Sink, StdSink, WriteFault};
pub use std_host::StdHost;
pub use text::{Text, TextFault};
