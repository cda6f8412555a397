//! The strategies.

/// How the hosts of a batch go through its tasks (Ansible's documentation, "Controlling playbook execution: strategies and more").
#[derive(Clone, Copy, Debug, PartialEq, Eq)]
pub enum Strategy {
    /// All hosts do one task, and then all of them the next one.
    Linear,
    /// Each host goes on as fast as it can.
    Free,
    /// As `Free`, but no more hosts are under way at once than there are forks: another one begins when one of them is at its end.
    HostPinned,
}
