use pb_outcome::job::{Job, Report};

/// What lies in a slot.
#[derive(Drop)]
pub enum Parcel {
    Work(Job),
    Done(Report),
}
