use pb_ids::{GroupNo, HostNo};

/// One group stands among the children of another.
#[derive(Clone, Copy, Debug)]
pub struct ChildLink {
    pub parent: GroupNo,
    pub child: GroupNo,
}

/// A host stands among a group's own hosts.
#[derive(Clone, Copy, Debug)]
pub struct OwnHost {
    pub group: GroupNo,
    pub host: HostNo,
}
