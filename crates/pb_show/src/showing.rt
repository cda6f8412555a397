//! What a line becomes, and what is kept of it for the next one.

ghost use Rattle.std.specs.Prelude.{◌≡◌, ◌++◌, [], IfOk, OnOk, OnErr, unwrap_or};
ghost use Rattle.serde_json.specs.View.{view};
ghost use Rattle.pb_show.specs.Results.{ended_text};
ghost use Rattle.pb_show.specs.Showing.{start, unknown, task_for, banner_for, going, is_first, noted, ended_after, progress_text, play_shown, task_shown, ended_shown, notice_shown, totals_shown, started_shown, begun_shown, event_shown, event_in, event_at, text_of, state_of, lacks_end, shown};

use crate::banner::{begun_text, notice_text, play_text, put_task, started_text};
use crate::ended::Ended;
use crate::kind::{How, Kind};
use crate::line::Line;
use crate::look::Look;
use crate::notices::{Task, Totals};
use crate::reading::{
    ended_in, json_at, kind_in, notice_in, play_in, task_in, text_at, totals_in, whole_at,
};
use pb_value::items::Items;
use pb_value::text::Text;
use serde_json::Value;
use std::alloc::{AllocError, Global};

/// A failure of a task that wasn't ignored: on which host, and in which task.
pub struct Failure {
    pub host: Text,
    pub task: Text,
}

// (by hand: it is then dropped by one call, and not part by part at each exit)
impl Drop for Failure {
    fn drop(self) {
        let Failure { host, task } = self;
        drop(host);
        drop(task);
    }
}

/// How far a run has come.
#[derive(Clone, Copy)]
pub enum Phase {
    /// No event was shown.
    Nothing,
    /// It has begun.
    Going,
    /// Its statistics are there.
    Over(Totals),
}

/// What is kept of the lines so far.
pub struct Showing {
    /// The tasks and handlers that started in the play's batch, the latest one last.
    pub tasks: Items<Task>,
    /// The place of the task whose banner was shown last; empty where the play has none yet.
    pub place: Text,
    /// The first failure that wasn't ignored.
    pub first: Option<Failure>,
    pub phase: Phase,
    /// Whether the last line lacks its line end.
    pub is_torn: bool,
    /// How many hosts are in the play's batch.
    pub hosts: u64,
    /// How many of them have ended the task whose banner was shown last.
    pub ended: u64,
}

// (by hand: it is then dropped by one call, and not part by part at each exit)
impl Drop for Showing {
    fn drop(self) {
        let Showing {
            tasks,
            place,
            first,
            phase: _,
            is_torn: _,
            hosts: _,
            ended: _,
        } = self;
        drop(tasks);
        drop(place);
        drop(first);
    }
}

/// A task that no line started, by its place.
fn unknown(alloc: Global, place: &str) -> Result<Task, AllocError>
    ensures { IfOk result (λ task. task ≡ unknown place.now) }
{
    let mut name = Line::new(alloc);
    name.put("at place ")?;
    name.put(place)?;
    Ok(Task {
        place: Text::from_str(alloc, place)?,
        name: name.into_text(),
        is_handler: false,
    })
}

/// The task at a place, of those that started.
fn task_for(alloc: Global, tasks: &[Task], place: &str) -> Result<Task, AllocError>
    ensures { IfOk result (λ task. task ≡ task_for tasks.now place.now) }
{
    for task in tasks {
        if task.place.as_str() == place {
            return task.try_clone();
        }
    }
    unknown(alloc, place)
}

/// Whether a line lacks its line end.
fn lacks_end(line: &[u8]) -> bool
    ensures { result ≡ lacks_end line.now }
{
    match line.last() {
        Some(byte) => *byte != b'\n',
        None => false,
    }
}

impl Showing {
    /// Before all lines.
    pub fn new(alloc: Global) -> Showing
        ensures { result ≡ start }
    {
        Showing {
            tasks: Items::new(alloc),
            place: Text::new(alloc),
            first: None,
            phase: Phase::Nothing,
            is_torn: false,
            hosts: 0,
            ended: 0,
        }
    }

    /// Behind an event that changes neither play nor task.
    fn go_on(&mut self)
        ensures { self.new ≡ going self.old }
    {
        self.phase = Phase::Going;
        self.is_torn = false;
    }

    /// Whether a failure is the first that counts.
    fn is_first(&self, ended: &Ended) -> bool
        ensures { result ≡ is_first self.now ended.now }
    {
        self.first.is_none() && ended.item.is_none() && ended.ending.is_failure()
    }

    /// How many hosts have ended the task of a result, with that one.
    fn ended_after(&self, ended: &Ended) -> u64
        ensures { result ≡ ended_after self.now ended.now }
    {
        let before = if self.place.as_str() == ended.place.as_str() {
            self.ended
        } else {
            0
        };
        if ended.item.is_some() {
            before
        } else {
            before.saturating_add(1)
        }
    }

    /// Notes a failure, if it is the first that counts.
    fn note(&mut self, alloc: Global, ended: &Ended) -> Result<(), AllocError>
        ensures ok { OnOk result (self.new ≡ noted self.old ended.now) }
        ensures err { OnErr result (self.new ≡ self.old) }
    {
        if self.is_first(ended) {
            let task = task_for(alloc, self.tasks.as_slice(), ended.place.as_str())?;
            self.first = Some(Failure {
                host: ended.host.try_clone()?,
                task: task.into_name(),
            });
        }
        Ok(())
    }

    /// Writes the banner of a result's task, where another one stands last; nothing stands in the line yet.
    fn put_banner(&self, alloc: Global, line: &mut Line, place: &str) -> Result<(), AllocError>
        requires { line.old ≡ [] }
        ensures { OnOk result (line.new ≡ banner_for self.now place.now) }
    {
        if self.place.as_str() == place {
            return Ok(());
        }
        let task = task_for(alloc, self.tasks.as_slice(), place)?;
        put_task(line, &task)
    }

    /// The text of a result, under the banner of its task.
    fn ended_text(&self, alloc: Global, look: Look, ended: &Ended) -> Result<Text, AllocError>
        ensures { IfOk result (λ text. text ≡ banner_for self.now ended.now.place ++ ended_text look ended.now) }
    {
        let mut line = Line::new(alloc);
        self.put_banner(alloc, &mut line, ended.place.as_str())?;
        line.put_ended(alloc, look, ended)?;
        Ok(line.into_text())
    }

    fn show_begun(
        &mut self,
        alloc: Global,
        look: Look,
        json: &Value,
    ) -> Result<Option<Text>, AllocError>
        ensures text { IfOk result (λ text. text ≡ text_of (begun_shown look self.old (view json.now))) }
        ensures state { OnOk result (self.new ≡ state_of (begun_shown look self.old (view json.now)) self.old) }
        ensures err { OnErr result (self.new ≡ self.old) }
    {
        let Some(plays) = whole_at(json, "plays") else {
            return Ok(None);
        };
        let text = begun_text(alloc, look, plays)?;
        self.go_on();
        Ok(Some(text))
    }

    fn show_play(&mut self, alloc: Global, json: &Value) -> Result<Option<Text>, AllocError>
        ensures text { IfOk result (λ text. text ≡ text_of (play_shown self.old (view json.now))) }
        ensures state { OnOk result (self.new ≡ state_of (play_shown self.old (view json.now)) self.old) }
        ensures err { OnErr result (self.new ≡ self.old) }
    {
        let Some(play) = play_in(alloc, json)? else {
            return Ok(None);
        };
        let text = play_text(alloc, &play)?;
        self.tasks = Items::new(alloc);
        self.place = Text::new(alloc);
        self.hosts = play.hosts;
        self.ended = 0;
        self.go_on();
        Ok(Some(text))
    }

    fn show_task(
        &mut self,
        alloc: Global,
        is_handler: bool,
        json: &Value,
    ) -> Result<Option<Text>, AllocError>
        ensures text { IfOk result (λ text. text ≡ text_of (task_shown is_handler self.old (view json.now))) }
        ensures state { OnOk result (self.new ≡ state_of (task_shown is_handler self.old (view json.now)) self.old) }
        ensures err { OnErr result (self.new ≡ self.old) }
    {
        let Some(task) = task_in(alloc, is_handler, json)? else {
            return Ok(None);
        };
        let mut line = Line::new(alloc);
        put_task(&mut line, &task)?;
        let place = task.place.try_clone()?;
        self.tasks.push(task)?;
        self.place = place;
        self.ended = 0;
        self.go_on();
        Ok(Some(line.into_text()))
    }

    fn show_started(
        &mut self,
        alloc: Global,
        look: Look,
        json: &Value,
    ) -> Result<Option<Text>, AllocError>
        ensures text { IfOk result (λ text. text ≡ text_of (started_shown look self.old (view json.now))) }
        ensures state { OnOk result (self.new ≡ state_of (started_shown look self.old (view json.now)) self.old) }
        ensures err { OnErr result (self.new ≡ self.old) }
    {
        let Some(host) = text_at(alloc, json, "host")? else {
            return Ok(None);
        };
        let text = started_text(alloc, look, host.as_str())?;
        self.go_on();
        Ok(Some(text))
    }

    fn show_ended(
        &mut self,
        alloc: Global,
        look: Look,
        how: How,
        is_item: bool,
        json: &Value,
    ) -> Result<Option<Text>, AllocError>
        ensures text { IfOk result (λ text. text ≡ text_of (ended_shown look how is_item self.old (view json.now))) }
        ensures state { OnOk result (self.new ≡ state_of (ended_shown look how is_item self.old (view json.now)) self.old) }
        ensures err { OnErr result (self.new ≡ self.old) }
    {
        let Some(ended) = ended_in(alloc, how, is_item, json)? else {
            return Ok(None);
        };
        let text = self.ended_text(alloc, look, &ended)?;
        let place = ended.place.try_clone()?;
        self.note(alloc, &ended)?;
        self.ended = self.ended_after(&ended);
        self.place = place;
        self.go_on();
        Ok(Some(text))
    }

    fn show_notice(&mut self, alloc: Global, json: &Value) -> Result<Option<Text>, AllocError>
        ensures text { IfOk result (λ text. text ≡ text_of (notice_shown self.old (view json.now))) }
        ensures state { OnOk result (self.new ≡ state_of (notice_shown self.old (view json.now)) self.old) }
        ensures err { OnErr result (self.new ≡ self.old) }
    {
        let Some(notice) = notice_in(alloc, json)? else {
            return Ok(None);
        };
        let text = notice_text(alloc, &notice)?;
        self.go_on();
        Ok(Some(text))
    }

    fn show_totals(&mut self, alloc: Global, json: &Value) -> Result<Option<Text>, AllocError>
        ensures text { IfOk result (λ text. text ≡ text_of (totals_shown self.old (view json.now))) }
        ensures state { OnOk result (self.new ≡ state_of (totals_shown self.old (view json.now)) self.old) }
        ensures err { OnErr result (self.new ≡ self.old) }
    {
        let Some(totals) = totals_in(json) else {
            return Ok(None);
        };
        let text = Text::from_str(alloc, "\n")?;
        self.phase = Phase::Over(totals);
        self.is_torn = false;
        Ok(Some(text))
    }

    /// How many hosts have ended the task of how many, as it stands on a terminal behind what is shown; the empty text where no play has hosts.
    #[tactic(auto, unfolding(crate::specs::Showing::progress_text))]
    pub fn progress(&self, alloc: Global) -> Result<Text, AllocError>
        ensures { IfOk result (λ text. text ≡ progress_text self.now) }
    {
        let mut line = Line::new(alloc);
        if self.hosts == 0 {
            return Ok(line.into_text());
        }
        line.put("[")?;
        line.put_number(alloc, self.ended)?;
        line.put("/")?;
        line.put_number(alloc, self.hosts)?;
        line.put(" hosts]")?;
        Ok(line.into_text())
    }

    /// What an object becomes that is an event of this kind.
    fn show_event(
        &mut self,
        alloc: Global,
        look: Look,
        json: &Value,
        kind: Kind,
    ) -> Result<Option<Text>, AllocError>
        ensures text { IfOk result (λ text. text ≡ text_of (event_shown look self.old (view json.now) kind)) }
        ensures state { OnOk result (self.new ≡ state_of (event_shown look self.old (view json.now) kind) self.old) }
        ensures err { OnErr result (self.new ≡ self.old) }
    {
        match kind {
            Kind::Begun => self.show_begun(alloc, look, json),
            Kind::Play => self.show_play(alloc, json),
            Kind::Task => self.show_task(alloc, false, json),
            Kind::Handler => self.show_task(alloc, true, json),
            Kind::HostStart => self.show_started(alloc, look, json),
            Kind::Ended(how) => self.show_ended(alloc, look, how, false, json),
            Kind::Item(how) => self.show_ended(alloc, look, how, true, json),
            Kind::Notify => self.show_notice(alloc, json),
            Kind::Totals => self.show_totals(alloc, json),
        }
    }

    /// What an object becomes, if it is an event.
    fn show_json(
        &mut self,
        alloc: Global,
        look: Look,
        json: &Value,
    ) -> Result<Option<Text>, AllocError>
        ensures text { IfOk result (λ text. text ≡ text_of (event_in look self.old (view json.now))) }
        ensures state { OnOk result (self.new ≡ state_of (event_in look self.old (view json.now)) self.old) }
        ensures err { OnErr result (self.new ≡ self.old) }
    {
        match kind_in(json) {
            Some(kind) => self.show_event(alloc, look, json, kind),
            None => Ok(None),
        }
    }

    /// What a line becomes, if it is an event.
    fn show_known(
        &mut self,
        alloc: Global,
        look: Look,
        line: &[u8],
    ) -> Result<Option<Text>, AllocError>
        ensures text { IfOk result (λ text. text ≡ text_of (event_at look self.old line.now)) }
        ensures state { OnOk result (self.new ≡ state_of (event_at look self.old line.now) self.old) }
        ensures err { OnErr result (self.new ≡ self.old) }
    {
        match json_at(alloc, line)? {
            Some(json) => self.show_json(alloc, look, &json),
            None => Ok(None),
        }
    }

    /// The text that a line becomes, where it is an event of `pb-play`: an object whose `event` is one of its words, with the keys that
    /// such an event has, of their kinds. None where it isn't: the line is then passed on as it is. The line has its line end with it, if
    /// it has one. A start of the run or of a host has the empty text, unless these are shown.
    ///
    /// # Errors
    /// Memory was refused. What is kept of the lines before stays as it was.
    pub fn show_line(
        &mut self,
        alloc: Global,
        look: Look,
        line: &[u8],
    ) -> Result<Option<Text>, AllocError>
        ensures text { IfOk result (λ text. text ≡ text_of (event_at look self.old line.now)) }
        ensures shown { IfOk result (λ text. unwrap_or text line.now ≡ (shown look self.old line.now).text) }
        ensures state { OnOk result (self.new ≡ (shown look self.old line.now).state) }
        ensures err { OnErr result (self.new ≡ self.old) }
    {
        let text = self.show_known(alloc, look, line)?;
        if text.is_none() {
            self.is_torn = lacks_end(line);
        }
        Ok(text)
    }
}
