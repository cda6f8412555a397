ghost use Rattle.std.specs.Prelude.{◌≡◌};
ghost use Rattle.std.specs.List.{list_any};
ghost use Rattle.std.specs.Str.{bytes_eq};
ghost use Rattle.serde_json.specs.View.{view};
ghost use Rattle.pb_reading.specs.Reading.{Gives};
ghost use Rattle.pb_role_entries.specs.Keys.{is_refused, one_more_param, tags, asked};

use pb_expr_syntax::tree::Expr;
use pb_reading::keys::Others;
use pb_reading::reads::Reads;
use pb_reading::stop::Stop;
use pb_value::items::Items;
use pb_value::text::Text;
use pb_value::val::{Dict, Val};
use pb_written::conditions::Conditions;
use pb_written::fault::{LoadFault, not_in_profile};
use pb_written::tags::has_never;
use pb_written::values::{PlainValue, TemplateValue};
use serde_json::Value;
use std::alloc::Global;

/// The keys that mean something else in Ansible than a parameter.
const REFUSED: [&str; 24] = [
    // as whom tasks run
    "become",
    "become_exe",
    "become_flags",
    "become_method",
    "become_user",
    // how a host is reached
    "connection",
    "port",
    "timeout",
    // in what way tasks run
    "async",
    "check_mode",
    "collections",
    "debugger",
    "diff",
    "environment",
    "module_defaults",
    "no_log",
    "poll",
    // what tasks, blocks or plays may have, and entries don't hand down
    "any_errors_fatal",
    "delegate_facts",
    "delegate_to",
    "ignore_errors",
    "ignore_unreachable",
    "run_once",
    "throttle",
];

/// Whether the key is one of these words.
fn is_among(key: &str, words: &[&str]) -> bool
    ensures { result ≡ list_any (λ word. bytes_eq key.now word.now) words.now }
{
    for word in words {
        if key == *word {
            return true;
        }
    }
    false
}

/// Whether a key of an entry is refused: it means something else in Ansible than a parameter.
fn is_refused(key: &str) -> bool
    ensures { result ≡ is_refused key.now }
{
    is_among(key, &REFUSED)
}

/// The parameters that an entry gives its role: its keys that mean nothing else.
#[derive(Drop)]
pub(crate) struct Params {
    pub(crate) params: Dict,
}

impl Others for Params {
    type Fault = LoadFault;

    ghost tells = { one_more_param };

    fn tell(
        &mut self,
        alloc: Global,
        path: &Text,
        key: &str,
        json: &Value,
    ) -> Result<(), Stop<LoadFault>> {
        if is_refused(key) {
            return not_in_profile(alloc, path, key);
        }
        let value = TemplateValue::read(alloc, path, json)?;
        self.params.put(alloc, key, value)?;
        Ok(())
    }
}

/// Reads the tags of an entry, which are kept as they are written.
pub(crate) struct Tags;

impl Reads<LoadFault> for Tags {
    type Value = Val;

    ghost reads = { tags };

    fn read(alloc: Global, path: &Text, json: &Value) -> Result<Val, Stop<LoadFault>> {
        let tags = PlainValue::read(alloc, path, json)?;
        if has_never(json) {
            not_in_profile(alloc, path, "never")
        } else {
            Ok(tags)
        }
    }
}

/// What an entry asks: its conditions, and what is written there.
#[derive(Drop)]
pub(crate) struct Asked {
    pub(crate) conditions: Items<Expr>,
    pub(crate) as_written: Val,
}

impl Reads<LoadFault> for Asked {
    type Value = Asked;

    ghost reads = { asked };

    fn read(alloc: Global, path: &Text, json: &Value) -> Result<Asked, Stop<LoadFault>> {
        let conditions = Conditions::read(alloc, path, json)?;
        let as_written = PlainValue::read(alloc, path, json)?;
        Ok(Asked {
            conditions,
            as_written,
        })
    }
}
