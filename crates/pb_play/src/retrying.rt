ghost use Rattle.std.specs.Prelude.{◌≡◌};
ghost use Rattle.pb_play.specs.Retrying.{delay_before};

use pb_expr_syntax::tree::Expr;
use pb_value::items::Items;

/// How often a task is tried on a host, and until when. See Ansible's documentation, "Retrying a task until a condition is met".
pub struct Retrying {
    /// What has to hold of an attempt's result for it to be the last one, where the task says so: each of these. Where it doesn't, the result may not be
    /// failed.
    pub until: Option<Items<Expr>>,
    /// How many attempts may follow the first one, at most 100.
    pub retries: u32,
    /// How many seconds lie between two attempts, at most 3,600.
    pub delay: u32,
}

impl Drop for Retrying {
    fn drop(self) {
        let Retrying {
            until,
            retries: _,
            delay: _,
        } = self;
        drop(until);
    }
}

/// How many seconds lie before this attempt at an item of a task, counted from 1: none before the first one.
pub fn delay_before(retrying: &Option<Retrying>, attempt: u32) -> u32
    ensures { result ≡ delay_before retrying.now attempt }
{
    match retrying {
        Some(retrying) if attempt != 1 => retrying.delay,
        _ => 0,
    }
}
