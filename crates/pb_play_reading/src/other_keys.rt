ghost use Rattle.pb_play_reading.specs.NoEffect.{has_no_effect};
ghost use Rattle.pb_play_reading.specs.Arguments.{refuses};

use crate::no_effect::check_without_effect;
use pb_reading::keys::Others;
use pb_reading::stop::Stop;
use pb_value::text::Text;
use pb_written::fault::{LoadFault, not_in_profile};
use serde_json::Value;
use std::alloc::Global;

/// The keys of a play, a block or a meta task that are no fields: each has to be without effect.
#[derive(Drop)]
pub(crate) struct WithoutEffect;

impl Others for WithoutEffect {
    type Fault = LoadFault;

    ghost tells = { has_no_effect };

    fn tell(
        &mut self,
        alloc: Global,
        path: &Text,
        key: &str,
        json: &Value,
    ) -> Result<(), Stop<LoadFault>> {
        check_without_effect(alloc, path, key, json)
    }
}

/// The keys of a module's arguments that are no fields: there is none.
#[derive(Drop)]
pub(crate) struct NoArguments;

impl Others for NoArguments {
    type Fault = LoadFault;

    ghost tells = { refuses };

    fn tell(
        &mut self,
        alloc: Global,
        path: &Text,
        key: &str,
        _json: &Value,
    ) -> Result<(), Stop<LoadFault>> {
        not_in_profile(alloc, path, key)
    }
}
