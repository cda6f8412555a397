//! A report that an event holds.

ghost use Rattle.std.specs.Prelude.{◌≡◌, IfOk, IfErr};

use pb_outcome::job::Report;
use std::alloc::{AllocFailed, Global};
use std::marker::Model;
use std::ops::Deref;

/// A report behind a pointer, so that an event takes no more room for it than for a number. Contracts see the report itself.
pub struct BoxedReport {
    report: Box<Report>,
}

impl Drop for BoxedReport {
    fn drop(self) {
        let BoxedReport { report } = self;
        drop(report);
    }
}

impl Model for BoxedReport {
    ghost use Rattle.pb_outcome.specs.declared.job.Report.{Report};
    ghost use Rattle.pb_outcome.specs.contracts.job.Report as the_report;

    ghost Value = { Report };

    ghost coded = { the_report.the_row.coded };

    ghost view = { λ b. b.report.value };
}

impl BoxedReport {
    /// Puts a report behind a pointer. Where memory is refused for it, it is handed back.
    pub fn new(alloc: Global, report: Report) -> Result<BoxedReport, AllocFailed<Report>>
        ensures ok { IfOk result (λ boxed. boxed ≡ report) }
        ensures back { IfErr result (λ failed. failed.value ≡ report) }
    {
        match Box::new(alloc, report) {
            Ok(report) => Ok(BoxedReport { report }),
            Err(failed) => Err(failed),
        }
    }

    /// The report itself.
    pub fn into_report(self) -> Report
        ensures { result ≡ self }
    {
        let BoxedReport { report } = self;
        Box::into_inner(report)
    }
}

impl Deref for BoxedReport {
    type Target = Report;

    ghost deref_gives = { λ boxed report. report ≡ boxed };

    fn deref(&self) -> &Report
        ensures { result.now ≡ self.now }
    {
        self.report.as_ref()
    }
}
