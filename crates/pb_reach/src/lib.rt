//! Whether a name can be looked up while the items of a task are read, or while the task says of a result whether it changed something or
//! failed, and whether it is tried again: what tells that a magic variable needn't be made.
//!
//! For the layer above: `may_read` looks for a name in a task, in its conditions and its delegate, and in all variables that it sees whose
//! texts are templates. Where it answers false, whatever stands under that name among the magic variables has no part in the task's
//! items. `may_read_of_result` looks for it in the task's `changed_when`, `failed_when` and `until`, and where one of their names stands for a template
//! among those variables in these too, and in nothing else: where it answers false, what stands under the name has no part in what the task says of a
//! result (`specs/Reach.antt`). `has_result_conditions` answers whether the task has one of the two, or may be tried again: any other task leaves each result as it
//! came back (`specs/ResultConditions.antt`), and reads nothing. Both may answer true of a name that is never looked up: texts are searched for the bytes of the
//! name (`pb_mentions`), and aren't read as templates. They take no memory. Where the name is known to stand in no variable that a task sees,
//! `may_read_by_itself` and `may_read_of_result_by_itself` ask the task alone.
#![tactic(auto)]

mod exprs;
mod merged;
pub mod reach;
mod variables;
