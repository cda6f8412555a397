ghost use Rattle.std.specs.Prelude.{◌≡◌};
ghost use Rattle.serde_json.specs.View.{view};
ghost use Rattle.pb_reading.specs.Ahead.{ahead, Takes};
ghost use Rattle.pb_reading.specs.Reading.{Gives};
ghost use Rattle.pb_written.specs.Values.{template_text};
ghost use Rattle.pb_play_reading.specs.Couplings.{coupled, delegation, runs};

use crate::throttle::Throttle;
use pb_play::couplings::Couplings;
use pb_prepared::prepared::PreparedText;
use pb_reading::keys::{Keys, Others};
use pb_reading::reads::Reads;
use pb_reading::stop::Stop;
use pb_value::text::Text;
use pb_written::fault::LoadFault;
use pb_written::simple::Switch;
use pb_written::values::TemplateText;
use serde_json::Value;
use std::alloc::Global;

/// Where these keys say it.
pub(crate) fn coupled(
    any_errors_fatal: Option<bool>,
    delegation: Delegation,
    run_once: Option<bool>,
) -> Couplings
    ensures { result ≡ coupled any_errors_fatal delegation run_once }
{
    let Delegation {
        delegate_facts,
        delegate_to,
    } = delegation;
    Couplings {
        any_errors_fatal,
        delegate_facts,
        delegate_to,
        run_once,
    }
}

/// Which host runs a task in place of its own, and whether the facts are that host's, where a task or a block says so.
#[derive(Drop)]
pub(crate) struct Delegation {
    pub(crate) delegate_facts: Option<bool>,
    pub(crate) delegate_to: Option<PreparedText>,
}

/// Reads the template of the name of the host that runs a task in place of its own.
pub(crate) struct Delegate;

impl Reads<LoadFault> for Delegate {
    type Value = PreparedText;

    ghost reads = { template_text };

    fn read(alloc: Global, path: &Text, json: &Value) -> Result<PreparedText, Stop<LoadFault>> {
        let name = TemplateText::read(alloc, path, json)?;
        Ok(PreparedText::of(alloc, name))
    }
}

pub(crate) fn read_delegation<O: Others<Fault = LoadFault>>(
    alloc: Global,
    keys: &mut Keys<'_, O>,
) -> Result<Delegation, Stop<LoadFault>>
    ensures value { Takes (λ v. v) result (ahead keys.new) (delegation O.tells (ahead keys.old)) }
    ensures path { (ahead keys.new).path ≡ (ahead keys.old).path }
{
    let delegate_facts = keys.field::<Switch>(alloc, "delegate_facts")?;
    let delegate_to = keys.field::<Delegate>(alloc, "delegate_to")?;
    Ok(Delegation {
        delegate_facts,
        delegate_to,
    })
}

/// Whether the first host runs a task for all of them, and how many run it at once, where a task or a block says so.
#[derive(Drop)]
pub(crate) struct Runs {
    pub(crate) run_once: Option<bool>,
    pub(crate) throttle: Option<u32>,
}

pub(crate) fn read_runs<O: Others<Fault = LoadFault>>(
    alloc: Global,
    keys: &mut Keys<'_, O>,
) -> Result<Runs, Stop<LoadFault>>
    ensures value { Takes (λ v. v) result (ahead keys.new) (runs O.tells (ahead keys.old)) }
    ensures path { (ahead keys.new).path ≡ (ahead keys.old).path }
{
    let run_once = keys.field::<Switch>(alloc, "run_once")?;
    let throttle = keys.field::<Throttle>(alloc, "throttle")?;
    Ok(Runs { run_once, throttle })
}
