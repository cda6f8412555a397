//! How a task ended on a host, and its text.

ghost use Rattle.std.specs.Prelude.{◌≡◌, ◌++◌, OnOk, is_some};
ghost use Rattle.pb_show.specs.Results.{word_of, color_of, paint, unpaint, counted_by, item_text, verdict_of, lead_of, message_text, code_text, error_line, error_lines, ignoring, who_of, said_of, head_of, is_failure, ended_text};

use crate::line::Line;
use crate::look::Look;
use pb_value::items::Items;
use pb_value::text::Text;
use std::alloc::{AllocError, Global};

/// How a task, or an item of it, ended.
#[derive(Clone, Copy)]
pub enum Ending {
    /// Well, and nothing was changed.
    Well,
    /// Well, and something was changed.
    Changed,
    Skipped,
    Failed,
    /// It failed, and that is ignored.
    Ignored,
    /// The host is out of reach.
    Lost,
    /// It is tried again.
    Retried,
}

/// How a task, or an item of it, ended on a host.
pub struct Ended {
    pub ending: Ending,
    pub host: Text,
    /// The place of the task in its play.
    pub place: Text,
    /// The number of the item, if it was one, or of the attempt that another one follows.
    pub item: Option<u64>,
    /// What the result says; empty where it says nothing.
    pub message: Text,
    /// The status of the program, of a failure that tells one.
    pub code: Option<i64>,
    /// The last lines of the program's errors, of a failure: at most 10.
    pub errors: Items<Text>,
}

// (by hand: it is then dropped by one call, and not part by part at each exit)
impl Drop for Ended {
    fn drop(self) {
        let Ended {
            ending: _,
            host,
            place,
            item: _,
            message,
            code: _,
            errors,
        } = self;
        drop(host);
        drop(place);
        drop(message);
        drop(errors);
    }
}

impl Ending {
    /// Whether it is a failure that isn't ignored.
    pub(crate) fn is_failure(self) -> bool
        ensures { result ≡ is_failure self }
    {
        match self {
            Ending::Failed => true,
            Ending::Well
            | Ending::Changed
            | Ending::Skipped
            | Ending::Ignored
            | Ending::Lost
            | Ending::Retried => false,
        }
    }

    /// The word that a line begins with, of an item or of the host's whole task.
    fn word(self, is_item: bool) -> &'static str
        ensures { result.now ≡ word_of is_item self }
    {
        match self {
            Ending::Well => "ok",
            Ending::Changed => "changed",
            Ending::Skipped => "skipping",
            Ending::Retried => "retrying",
            Ending::Failed | Ending::Ignored | Ending::Lost => {
                if is_item { "failed" } else { "fatal" }
            }
        }
    }

    /// What stands behind the host's name of a task that didn't go well.
    fn verdict(self, is_item: bool) -> &'static str
        ensures { result.now ≡ verdict_of is_item self }
    {
        if is_item {
            return "";
        }
        match self {
            Ending::Failed | Ending::Ignored => ": FAILED!",
            Ending::Lost => ": UNREACHABLE!",
            Ending::Well | Ending::Changed | Ending::Skipped | Ending::Retried => "",
        }
    }

    /// What stands in front of a message.
    fn lead(self, is_item: bool) -> &'static str
        ensures { result.now ≡ lead_of is_item self }
    {
        if is_item {
            return " => ";
        }
        match self {
            Ending::Failed | Ending::Ignored | Ending::Lost => " ",
            Ending::Well | Ending::Changed | Ending::Skipped | Ending::Retried => " => ",
        }
    }

    /// What a number counts.
    fn counted(self) -> &'static str
        ensures { result.now ≡ counted_by self }
    {
        match self {
            Ending::Retried => "attempt",
            Ending::Well
            | Ending::Changed
            | Ending::Skipped
            | Ending::Failed
            | Ending::Ignored
            | Ending::Lost => "item",
        }
    }

    /// What turns a terminal to the colour of such an ending.
    fn color(self) -> &'static str
        ensures { result.now ≡ color_of self }
    {
        match self {
            Ending::Well => "\x1b[32m",
            Ending::Changed => "\x1b[33m",
            Ending::Skipped => "\x1b[36m",
            Ending::Failed | Ending::Ignored => "\x1b[31m",
            Ending::Lost => "\x1b[91m",
            Ending::Retried => "\x1b[35m",
        }
    }
}

impl Look {
    /// What turns a terminal to the colour of an ending, where there are colours.
    pub(crate) fn paint(self, ending: Ending) -> &'static str
        ensures { result.now ≡ paint self ending }
    {
        if self.color { ending.color() } else { "" }
    }

    /// What turns a terminal back.
    pub(crate) fn unpaint(self) -> &'static str
        ensures { result.now ≡ unpaint self }
    {
        if self.color { "\x1b[0m" } else { "" }
    }
}

impl Line {
    /// Writes the number of an item, or of what else is counted, if there is one.
    fn put_item(
        &mut self,
        alloc: Global,
        counted: &str,
        item: Option<u64>,
    ) -> Result<(), AllocError>
        ensures { OnOk result (self.new ≡ self.old ++ item_text counted.now item) }
    {
        match item {
            Some(number) => {
                self.put(" => (")?;
                self.put(counted)?;
                self.put("=")?;
                self.put_number(alloc, number)?;
                self.put(")")
            }
            None => Ok(()),
        }
    }

    /// Writes a message behind its lead, if there is one.
    fn put_message(&mut self, lead: &str, message: &str) -> Result<(), AllocError>
        ensures { OnOk result (self.new ≡ self.old ++ message_text lead.now message.now) }
    {
        if message.is_empty() {
            return Ok(());
        }
        self.put(lead)?;
        self.put_escaped(message)
    }

    /// Writes the status of a program, if there is one.
    fn put_code(&mut self, alloc: Global, code: Option<i64>) -> Result<(), AllocError>
        ensures { OnOk result (self.new ≡ self.old ++ code_text code) }
    {
        match code {
            Some(number) => {
                self.put(" (rc=")?;
                self.put_signed(alloc, number)?;
                self.put(")")
            }
            None => Ok(()),
        }
    }

    /// Writes a line of a program's errors.
    #[tactic(auto, unfolding(crate::specs::Results::error_line))]
    fn put_error(&mut self, error: &str) -> Result<(), AllocError>
        ensures { OnOk result (self.new ≡ self.old ++ error_line error.now) }
    {
        self.put("    stderr: ")?;
        self.put_escaped(error)?;
        self.put("\n")
    }

    /// Writes the lines of a program's errors.
    fn put_errors(&mut self, errors: &[Text]) -> Result<(), AllocError>
        ensures { OnOk result (self.new ≡ self.old ++ error_lines errors.now) }
    {
        for error in errors {
            self.put_error(error.as_str())?;
        }
        Ok(())
    }

    /// Writes what happened to whom.
    #[tactic(auto, unfolding(crate::specs::Results::who_of))]
    fn put_who(&mut self, alloc: Global, ended: &Ended) -> Result<(), AllocError>
        ensures { OnOk result (self.new ≡ self.old ++ who_of ended.now) }
    {
        let is_item = ended.item.is_some();
        self.put(ended.ending.word(is_item))?;
        self.put(": [")?;
        self.put_escaped(ended.host.as_str())?;
        self.put("]")?;
        self.put_item(alloc, ended.ending.counted(), ended.item)?;
        self.put(ended.ending.verdict(is_item))
    }

    /// Writes what a result says, if it says something.
    fn put_said(&mut self, ended: &Ended) -> Result<(), AllocError>
        ensures { OnOk result (self.new ≡ self.old ++ said_of ended.now) }
    {
        let lead = ended.ending.lead(ended.item.is_some());
        self.put_message(lead, ended.message.as_str())
    }

    /// Writes the first line of an ending.
    #[tactic(auto, unfolding(crate::specs::Results::head_of))]
    fn put_head(&mut self, alloc: Global, look: Look, ended: &Ended) -> Result<(), AllocError>
        ensures { OnOk result (self.new ≡ self.old ++ head_of look ended.now) }
    {
        self.put(look.paint(ended.ending))?;
        self.put_who(alloc, ended)?;
        self.put_said(ended)?;
        self.put_code(alloc, ended.code)?;
        self.put(look.unpaint())?;
        self.put("\n")
    }

    /// Writes that a failure is ignored, where it is.
    fn put_ignoring(&mut self, ending: Ending) -> Result<(), AllocError>
        ensures { OnOk result (self.new ≡ self.old ++ ignoring ending) }
    {
        match ending {
            Ending::Ignored => self.put("...ignoring\n"),
            _ => Ok(()),
        }
    }

    /// Writes how a task ended.
    #[tactic(auto, unfolding(crate::specs::Results::ended_text))]
    pub(crate) fn put_ended(
        &mut self,
        alloc: Global,
        look: Look,
        ended: &Ended,
    ) -> Result<(), AllocError>
        ensures { OnOk result (self.new ≡ self.old ++ ended_text look ended.now) }
    {
        self.put_head(alloc, look, ended)?;
        self.put_errors(ended.errors.as_slice())?;
        self.put_ignoring(ended.ending)
    }
}
