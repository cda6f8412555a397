use pb_prepared::prepared::Prepared;
use pb_value::text::Text;

/// What a task is repeated over. See Ansible's documentation, "Loops".
#[derive(Drop)]
pub struct Loop {
    /// A list, or a text that is a template, as it is written: the template gives the list when the task starts.
    pub over: Prepared,
    /// The name under which a member of the list is seen.
    pub variable: Text,
}
