//! What a strategy sees of a run.

use crate::standings::Standings;
use crate::strategy::Strategy;
use std::marker::Model;

/// What a strategy sees of a run in which a batch is open.
#[derive(Drop)]
pub struct View<'a> {
    pub strategy: Strategy,
    /// How many hosts may run at once.
    pub forks: u32,
    /// Whether the run is stopped.
    pub is_stopped: bool,
    /// The current place, at which the hosts of the batch are under `Strategy::Linear`.
    pub place: Option<usize>,
    /// Whether the current place has a task that runs once, and a host has finished it other than by being gone.
    pub is_run_once_done: bool,
    /// How many hosts may run the task at a place at once; 0 is any number, and so it is behind the end.
    pub throttles: &'a [u32],
    /// Whether the first host of a batch runs the task at a place for all.
    pub run_once: &'a [bool],
    pub hosts: &'a Standings,
}

impl<'a> Model for View<'a> {
    ghost use Rattle.pb_strategies.specs.MayStart.{ViewOf};

    ghost Value = { ViewOf };

    ghost view = { λ v. record {
      strategy = v.strategy;
      forks = v.forks;
      is_stopped = v.is_stopped;
      place = v.place;
      is_run_once_done = v.is_run_once_done;
      throttles = v.throttles.now;
      run_once = v.run_once.now;
      hosts = v.hosts.now;
    } };
}
