/// How many rows passed, and how many fell short.
#[derive(Clone, Copy, Debug, Drop, PartialEq, Eq)]
pub struct Tally {
    pub passed: u32,
    pub failed: u32,
}

impl Tally {
    /// No row yet.
    pub fn new() -> Tally {
        Tally {
            passed: 0,
            failed: 0,
        }
    }

    /// Counts a row.
    pub fn count(&mut self, passed: bool) {
        if passed {
            self.passed = self.passed.saturating_add(1);
        } else {
            self.failed = self.failed.saturating_add(1);
        }
    }
}
