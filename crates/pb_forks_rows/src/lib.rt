//! Tests alone: one job through a pool of one fork, call by call; a pool that is dropped with jobs and reports in its slots.
#![tactic(auto)]

pub mod jobs;
#[cfg(test)]
mod row;
#[cfg(test)]
mod tests;
