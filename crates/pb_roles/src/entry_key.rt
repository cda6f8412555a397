//! Which entries have come in a play.
use pb_role_entries::entry::EntryAsWritten;
use pb_value::text::Text;
use pb_value::val::Val;

/// What two role entries are kept apart by.
pub struct EntryKey {
    /// The role's name.
    pub name: Text,
    /// The parameters that it is given, as a dict.
    pub params: Val,
    /// Its `vars`, `when` and `tags`, where they are written.
    pub as_written: EntryAsWritten,
}

impl Drop for EntryKey {
    fn drop(self) {
        let EntryKey {
            name,
            params,
            as_written,
        } = self;
        drop(name);
        drop(params);
        drop(as_written);
    }
}
