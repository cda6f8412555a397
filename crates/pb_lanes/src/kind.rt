//! The kinds under which tasks count.

/// What a finished task counts as (Ansible's documentation, "Return Values" and "Error handling in playbooks"). Which
/// tasks count under each kind is said in pb_recap.
#[derive(Clone, Copy, Debug, PartialEq, Eq)]
pub enum CountKind {
    /// It went well.
    Okay,
    /// It changed something.
    Changed,
    /// Its host could not be reached.
    Unreachable,
    /// It failed, and nothing caught that.
    Failed,
    /// Its condition was false.
    Skipped,
    /// It failed, and a rescue caught that.
    Rescued,
    /// It failed, and that was ignored.
    Ignored,
}
