/// What is counted over a run.
#[derive(Clone, Copy, Debug, PartialEq, Eq)]
pub struct Counts {
    /// Calls that took a number.
    pub calls: u32,
    /// Calls that were made.
    pub made: u32,
    /// Attempts that were refused.
    pub refused: u32,
    /// Calls that were given up.
    pub given: u32,
    /// Gets that were made, located by a record that wasn't merged yet.
    pub pending: u32,
    /// Gets that were made, located by the index.
    pub index: u32,
}
