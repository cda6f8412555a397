//! How lines are to look.

/// How the lines are to look.
#[derive(Clone, Copy)]
pub struct Look {
    /// Whether lines of results have colours.
    pub color: bool,
    /// Whether it is shown too that hosts start.
    pub starts: bool,
    /// Whether it is counted, beside what is shown, how many hosts have ended the task.
    pub progress: bool,
}
