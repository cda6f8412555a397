ghost use Rattle.std.specs.Prelude.{◌≡◌};
ghost use Rattle.pb_play.specs.Couplings.{uncoupled};

use pb_prepared::prepared::PreparedText;

/// What a task, a handler or a block says of how its hosts are coupled. Where it doesn't say something, the blocks round it are asked, and of failures that
/// end the play its play, too. See Ansible's documentation, "Controlling where tasks run" and "Error handling in playbooks".
pub struct Couplings {
    /// Whether a failure on one host ends the play for all.
    pub any_errors_fatal: Option<bool>,
    /// Whether the facts of a delegated task are those of the host that it is delegated to.
    pub delegate_facts: Option<bool>,
    /// The template of the name of the host that runs the task in place of the host itself.
    pub delegate_to: Option<PreparedText>,
    /// Whether the first host of a batch runs the task for all.
    pub run_once: Option<bool>,
}

impl Drop for Couplings {
    fn drop(self) {
        let Couplings {
            any_errors_fatal: _,
            delegate_facts: _,
            delegate_to,
            run_once: _,
        } = self;
        drop(delegate_to);
    }
}

impl Couplings {
    /// Where nothing is said of it.
    pub fn none() -> Couplings
        ensures { result ≡ uncoupled }
    {
        Couplings {
            any_errors_fatal: None,
            delegate_facts: None,
            delegate_to: None,
            run_once: None,
        }
    }
}
