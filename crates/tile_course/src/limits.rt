//! How long a script may be, and how often calls are made again.

/// The longest script in bytes.
pub const MAX_SCRIPT: usize = 16_777_216;

/// How many interrupted calls are made again in a run, over all devices.
pub const MAX_RETRIES: u32 = 1000;
