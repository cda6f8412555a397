//! The versions of the text of a trail.

ghost use Rattle.std.specs.Prelude.{◌≡◌};
ghost use Rattle.pb_audit.specs.Names.{version_of};

/// A version of the text of a trail, which its first line tells. The lines of sends and of reports name the attempt from the second one on; in
/// the first one each is the first attempt.
#[derive(Clone, Copy)]
pub(crate) enum Version {
    One,
    Two,
}

impl Version {
    /// The version of this number, if there is one.
    pub(crate) fn of_number(number: u64) -> Option<Version>
        ensures { result ≡ version_of number }
    {
        if number == 1 {
            Some(Version::One)
        } else if number == 2 {
            Some(Version::Two)
        } else {
            None
        }
    }
}
