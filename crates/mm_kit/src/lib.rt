//! Kits: a list of pieces and the files that it names, and their import into an edition, which may be stopped and begun again
//! any number of times. What is staged is a first part of the kit, and all of it where the import answers that it is complete.
//!
//! - `entries`: a record of the list.
//! - `file_names`: the names that files may have.
//! - `filling`: a piece with the bytes of its file.
//! - `folders`: where the files lie.
//! - `importing`: the steps of an import.
//! - `laws`: what imports come to.
//! - `lists`: the list.
//! - `memory`: a folder in memory.
//! - `staging`: one piece after another.
//!
//! # Example
//!
//! A kit of one attribute row is imported into the edition `may`, which is then published:
//!
//! ```rust
//! fn publish_kit<A: Editor>(alloc: Global, editor: &mut A) -> Option<Answer> {
//!     let mut list = MemoryFile {
//!         name: String::from_str(alloc, "kit.csv").ok()?,
//!         bytes: Vec::new(alloc),
//!     };
//!     list.bytes
//!         .extend_from_slice(b"1,row,spots,1,Gate,,0\n")
//!         .ok()?;
//!     let mut folder = MemoryFolder {
//!         files: Vec::new(alloc),
//!     };
//!     folder.files.push(list).ok()?;
//!     let edition = Name::read("may")?;
//!     let moment = Moment::new(0)?;
//!     import_kit(alloc, editor, &edition, &mut folder, moment).ok()?;
//!     Some(editor.apply(&Command::Publish { edition }, moment))
//! }
//! ```
#![tactic(auto)]

mod entries;
mod file_names;
mod filling;
mod folders;
mod importing;
pub mod laws;
mod lists;
mod memory;
mod staging;

pub use entries::KitEntry;
pub use file_names::FileName;
pub use folders::{Folder, FolderFault, Found};
pub use importing::{MOST_LIST_BYTES, import_kit};
pub use lists::Listed;
pub use memory::{MemoryFile, MemoryFolder};
