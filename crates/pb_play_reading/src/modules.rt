ghost use Rattle.std.specs.Prelude.{◌≡◌, ◌++◌, codes};
ghost use Rattle.serde_json.specs.View.{view};
ghost use Rattle.pb_reading.specs.Reading.{Gives};
ghost use Rattle.pb_play_reading.specs.Modules.{names, module_key, module_of};

use crate::assert::read_assert;
use crate::commands::{read_command, read_shell};
use crate::debug::read_debug;
use crate::facts::{read_set_fact, read_setup};
use crate::messages::read_message;
use pb_play::modules::Module;
use pb_prepared::prepared::{Prepared, PreparedText};
use pb_reading::stop::Stop;
use pb_value::text::Text;
use pb_written::fault::LoadFault;
use serde_json::Value;
use std::alloc::Global;

/// A module by its name.
#[derive(Clone, Copy)]
pub(crate) enum ModuleKey {
    Assert,
    Command,
    Debug,
    Fail,
    SetFact,
    Setup,
    Shell,
}

/// Whether the key is the name of a module, with its prefix or without.
pub(crate) fn names(key: &str, name: &str, full: &str) -> bool
    requires { full.now ≡ codes "ansible.builtin." ++ name.now }
    ensures { result ≡ names key.now name.now }
{
    key == name || key == full
}

impl ModuleKey {
    /// The module that a key names.
    pub(crate) fn of(key: &str) -> Option<ModuleKey>
        ensures { result ≡ module_key key.now }
    {
        if names(key, "assert", "ansible.builtin.assert") {
            Some(ModuleKey::Assert)
        } else if names(key, "command", "ansible.builtin.command") {
            Some(ModuleKey::Command)
        } else if names(key, "debug", "ansible.builtin.debug") {
            Some(ModuleKey::Debug)
        } else if names(key, "fail", "ansible.builtin.fail") {
            Some(ModuleKey::Fail)
        } else if names(key, "set_fact", "ansible.builtin.set_fact") {
            Some(ModuleKey::SetFact)
        } else if names(key, "setup", "ansible.builtin.setup") {
            Some(ModuleKey::Setup)
        } else if names(key, "shell", "ansible.builtin.shell") {
            Some(ModuleKey::Shell)
        } else {
            None
        }
    }

    /// The module with the arguments that stand at its key.
    pub(crate) fn read(
        self,
        alloc: Global,
        path: &Text,
        json: &Value,
    ) -> Result<Module, Stop<LoadFault>>
        ensures { Gives result (module_of self path.now (view json.now)) }
    {
        match self {
            ModuleKey::Assert => read_assert(alloc, path, json),
            ModuleKey::Command => Ok(Module::Command(read_command(alloc, path, json)?)),
            ModuleKey::Debug => read_debug(alloc, path, json),
            ModuleKey::Fail => {
                let msg = read_message(alloc, path, "Failed as requested from task", json)?;
                let msg = Prepared::of(alloc, msg);
                Ok(Module::Fail { msg })
            }
            ModuleKey::SetFact => read_set_fact(alloc, path, json),
            ModuleKey::Setup => read_setup(alloc, path, json),
            ModuleKey::Shell => {
                let cmd = read_shell(alloc, path, json)?;
                let cmd = PreparedText::of(alloc, cmd);
                Ok(Module::Shell { cmd })
            }
        }
    }
}
