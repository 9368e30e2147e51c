//! Files in memory.

/// A file in memory: its name and its bytes.
#[derive(Drop)]
pub struct NamedText {
    pub name: String,
    pub text: Vec<u8>,
}
