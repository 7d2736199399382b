/// What is known of a file of a folder.
#[derive(Clone, Copy)]
pub enum FileState {
    Unknown,
    /// The folder hasn't it.
    Absent,
    /// A sync of it failed. The system may have dropped what was written since the last good one,
    /// and call the next good all the same.
    Lost,
}

/// What is known of the names of a folder's files.
#[derive(Clone, Copy)]
pub enum NameState {
    Unknown,
    /// All are on the disk.
    Synced,
    /// A sync of them failed.
    Lost,
}
