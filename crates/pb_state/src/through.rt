//! Which hosts a run has brought through.

ghost use Rattle.std.specs.Prelude.{◌≡◌, drop};
ghost use Rattle.pb_state.specs.Through.{is_done, is_selected};

use pb_host::Host;
use pb_ids::HostNo;
use pb_plan::PlanPlay;

/// Whether a host is active, and waits for nothing in the play that goes on.
pub(crate) fn is_done(row: &Host) -> bool
    ensures { result ≡ is_done row.now }
{
    row.is_active() && !row.awaits_batch()
}

/// Whether one of the plays from this number on has a host for its own.
pub(crate) fn is_selected(plays: &[PlanPlay], from: usize, host: HostNo) -> bool
    ensures { result ≡ is_selected host.0 (drop from plays.now) }
{
    for number in from..plays.len() {
        if plays[number].hosts().contains(host) {
            return true;
        }
    }
    false
}
