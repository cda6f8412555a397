//! All hosts of a run: their rows, and what is kept beside them.
//!
//! For the layers above: `Hosts` are the rows of all hosts, which contracts see as a plain list of `HostOf` (pb_host). Its calls change the row of
//! one host as its task starts, is sent or comes back, and give to other hosts what the task gives (`specs/Giving.antt`); or all rows as a batch opens
//! (`specs/Batches.antt`), goes on (`specs/Turn.antt`) or closes. What was before hosts learnt something is handed out, in the order in which they did
//! (`specs/Applied.antt`). Which hosts have a job to send, where each stands, which are in the batch, which wait for theirs and which jobs are out is
//! kept beside the rows (`specs/Due.antt`), so that a step which changes one row asks that row alone, what is asked of the batch is asked of its rows,
//! and a batch that opens looks at the hosts that join and at those that were in the one before. Nothing here knows of events. A call that finds no
//! memory changes nothing.
#![tactic(auto)]

mod apply;
mod gifts;
mod hosts;
mod inside;
mod jobs_out;
mod list;
mod own;
mod turned;

pub use hosts::{
    Hosts, begin_first, is_run_once_done, join_first, least_place, leave_all, report_row, send_row,
    some_in, stand_at, turn_rows,
};
pub use list::play_hosts::{first_play, play_host_count};
pub use list::{attempt_in, counts_of, item_in};
pub use turned::TurnResult;
