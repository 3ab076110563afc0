//! The two lists of a media set: `FILES.LUM`, which names every file with its folder, member and
//! check sum, and `LOADS.LUM`, which names every load with its header, member and hardware.
//!
//! A list of other entries has the same head, set, user data and end. The functions that read,
//! measure and write these are public, and so is the search for a name that stands twice.
#![tactic(auto)]

mod encoding;
mod fault;
mod fitting;
mod laws;
mod lists;
mod measuring;
mod names;
mod paths;
mod printing;
mod reading;
mod reading_files;
mod reading_loads;
mod writing;

pub use encoding::pointers_of;
pub use fault::{ListFault, PathFault, WordFault};
pub use fitting::{are_new, is_member, is_user_data};
pub use laws::{files_list_laws, loads_list_laws, path_laws};
pub use lists::{FILES_VERSION, FilesList, LOADS_VERSION, ListedFile, LoadEntry, LoadsList};
pub use measuring::list_size;
pub use names::{Named, Order, is_new};
pub use reading::{
    LONGEST_LIST, MOST_ENTRIES, Pointers, read_count, read_head, read_identity, read_member_of,
    read_tail, test_limit,
};
pub use writing::{put_head, put_identity};
