//! The disk: numbered files of bytes, and what a crash may leave of them. Files 0 and 1 are the
//! journal, file 1 + c is cartridge c. docs/definitions.md says the disk model in words.
#![tactic(auto)]

mod disk_event;
mod fault_counts;
mod file_bytes;
mod file_name;
mod file_state;
mod folder;
mod folder_lock;
mod folder_store;
mod gate;
mod history;
mod known_folder;
mod mem_file;
mod mem_folder;
mod mem_store;
mod opened;
mod part;
mod reading;
mod rebuilding;
mod store;
mod system_folder;

pub use folder::Folder;
pub use folder_lock::{Access, FolderLock, LockFault, Unlocked};
pub use folder_store::FolderStore;
pub use gate::{
    cut_unsynced, open_gate, write_anew, write_gated, write_parts, write_parts_gated, write_synced,
    write_unsynced,
};
pub use mem_folder::{MemFolder, MemHandle};
pub use mem_store::MemStore;
pub use store::Store;
pub use system_folder::SystemFolder;
