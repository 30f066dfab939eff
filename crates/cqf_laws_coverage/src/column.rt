//! What a link carries in a run.

/// What a link carries.
#[derive(Debug, Drop)]
pub struct Column {
    /// The number of frames that the link starts.
    pub frames: u64,
    /// The octets that the link starts in each cycle, from cycle 0 on. In cycles after the last entry it starts none.
    pub octets: Vec<u32>,
}
