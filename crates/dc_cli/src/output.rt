//! What a command prints.

/// The whole output, and the status that goes with it.
#[derive(Debug, Drop)]
pub struct Output {
    pub status: u8,
    pub bytes: Vec<u8>,
}
