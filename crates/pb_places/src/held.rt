//! The task of a place, as it is kept.
use crate::searched::SearchedTask;
use pb_play::task::Task;
use std::sync::Arc;

/// The task of a place: the place's own, or one that several places share.
#[derive(Drop)]
pub(crate) enum Held {
    Own(Task),
    Shared(Arc<SearchedTask>),
}
