/// What is known of the current file: its number (0 or 1), form and generation, and where its next
/// gate stands, behind the last entry.
#[derive(Clone, Copy)]
pub struct CurrentFile {
    pub file: u32,
    pub form: u8,
    pub generation: u64,
    pub gate: u64,
}
