//! How many rows were tried, and how many are not as they should be.

/// How many rows were tried, and how many of them are not as they should be, lines and files that
/// cannot be read among them.
#[derive(Clone, Copy, Default)]
pub struct Counts {
    pub rows: u64,
    pub faults: u64,
}

impl Counts {
    pub fn add_row(&mut self) {
        self.rows = self.rows.saturating_add(1);
    }

    pub fn add_fault(&mut self) {
        self.faults = self.faults.saturating_add(1);
    }
}
