//! Variables in whose texts `hostvars` doesn't stand.
ghost use Rattle.std.specs.Prelude.{◌≡◌, true};
ghost use Rattle.pb_mentions.specs.Hostvars.{IsFree};

use crate::values::members_mention;
use pb_value::val::Dict;

/// Whether `hostvars` stands in no text of some variables. All of them are searched.
pub fn is_free_of_hostvars(vars: &Dict) -> bool
    ensures { result ≡ true → IsFree vars.now }
{
    !members_mention("hostvars", vars)
}
