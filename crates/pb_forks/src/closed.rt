use crate::parcel::Parcel;
use crate::views::View;
use atomic_table::{Closed, Seat};
use std::alloc::Global;
use std::snapshot::Snapshot;

/// What contracts see of a pool that was closed: each fork's word and four lists. It has no bytes.
#[derive(Drop)]
pub struct PoolEnd {
    pub(crate) table: Snapshot<Closed<Option<Parcel>, Global>>,
    pub(crate) seat: Snapshot<Seat<Option<Parcel>, View>>,
}
