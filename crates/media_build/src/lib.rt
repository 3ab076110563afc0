//! Building media sets: what a recipe says, the set that it names, the generated set of a number,
//! and how a built set is written (docs/FORMATS.md, "Recipe", "Generated set", "Media sets").
//!
//! Start from [`Recipe::read`], which gives the lines of a recipe, or the first fault of a text
//! that is none, and [`build`], which builds its set of sources that the host has; or from
//! [`make`], which makes the generated set. [`write`] writes a built set into a folder of the host.
#![tactic(auto)]

mod batch_files;
mod batches;
mod bodies;
mod building;
mod building_fault;
mod fault;
mod gathering;
mod generated;
mod keywords;
pub mod laws;
mod line_counts;
mod lists;
mod load_parts;
mod loads;
mod making;
mod partial;
mod positions;
mod printing;
mod recipe;
mod sizes;
mod source_files;
mod sources;
mod statements;
mod words;
pub mod worked;
mod writing;

pub use building::build;
pub use building_fault::BuildFault;
pub use fault::RecipeFault;
pub use generated::generated_bytes;
pub use keywords::{Keyword, Stage};
pub use making::make;
pub use media_check::{Built, Placed};
pub use recipe::Recipe;
pub use statements::{
    BatchLine, FileLine, LoadLine, RecipeLine, Statement, TargetLine, TargetParts, UserData,
};
pub use writing::write;
