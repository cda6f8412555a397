ghost use Rattle.std.specs.Prelude.{◌≡◌};
ghost use Rattle.pb_reading.specs.Reading.{Gives};
ghost use Rattle.serde_json.specs.View.{view};
ghost use Rattle.pb_value.specs.Words.{switch_of};
ghost use Rattle.pb_play_reading.specs.NoEffect.{is_local, is_off, allowed, without_effect};

use pb_reading::stop::Stop;
use pb_value::text::Text;
use pb_value::words::switch;
use pb_written::fault::{LoadFault, not_in_profile};
use pb_written::tags::has_never;
use serde_json::Value;
use std::alloc::Global;

fn is_local(json: &Value) -> bool
    ensures { result ≡ is_local (view json.now) }
{
    match json {
        Value::String(text) => text.as_str() == "local",
        _ => false,
    }
}

fn is_off(json: &Value) -> bool
    ensures { result ≡ is_off (switch_of (view json.now)) }
{
    match switch(json) {
        Some(on) => !on,
        None => false,
    }
}

fn allow(alloc: Global, path: &Text, is_allowed: bool, name: &str) -> Result<(), Stop<LoadFault>>
    ensures { Gives result (allowed path.now is_allowed name.now) }
{
    if is_allowed {
        Ok(())
    } else {
        not_in_profile(alloc, path, name)
    }
}

/// What stands at a key without effect is allowed where it would change nothing; any other key isn't read.
pub(crate) fn check_without_effect(
    alloc: Global,
    path: &Text,
    key: &str,
    json: &Value,
) -> Result<(), Stop<LoadFault>>
    ensures { Gives result (without_effect path.now key.now (view json.now)) }
{
    if key == "connection" {
        allow(alloc, path, is_local(json), "connection")
    } else if key == "no_log" {
        allow(alloc, path, is_off(json), "no_log")
    } else if key == "tags" {
        allow(alloc, path, !has_never(json), "never")
    } else {
        let is_allowed = key == "gather_subset" || key == "remote_user";
        allow(alloc, path, is_allowed, key)
    }
}
