use crate::outcome::Outcome;
use pb_ids::{HostNo, Place, PlayNo, Ticket};
use pb_value::items::Items;
use pb_value::text::Text;
use std::alloc::{AllocError, Global};

/// What a job runs.
#[derive(Drop)]
pub enum Call {
    /// A program and its arguments, without a shell. See Ansible's documentation of `ansible.builtin.command`.
    Command { words: Items<Text> },
    /// A text for `/bin/sh`. See Ansible's documentation of `ansible.builtin.shell`.
    Shell { text: Text },
    /// The program that gathers facts. See Ansible's documentation of `ansible.builtin.setup`.
    Setup,
}

ghost use Rattle.std.specs.Prelude.{◌≡◌, IfOk};

/// Equal texts of their own.
fn clone_texts(alloc: Global, texts: &[Text]) -> Result<Items<Text>, AllocError>
    ensures { IfOk result (λ copies. copies ≡ texts.now) }
{
    let mut copies = Vec::with_capacity(alloc, texts.len())?;
    for text in texts {
        copies.push(text.try_clone()?)?;
    }
    Ok(Items::from_vec(copies))
}

impl Call {
    /// An equal call of its own.
    pub fn try_clone(&self, alloc: Global) -> Result<Call, AllocError>
        ensures { IfOk result (λ copy. copy ≡ self.now) }
    {
        match self {
            Call::Command { words } => {
                let words = clone_texts(alloc, words.as_slice())?;
                Ok(Call::Command { words })
            }
            Call::Shell { text } => {
                let text = text.try_clone()?;
                Ok(Call::Shell { text })
            }
            Call::Setup => Ok(Call::Setup),
        }
    }
}

/// One attempt at one item of a task on one host.
#[derive(Drop)]
pub struct Job {
    pub ticket: Ticket,
    pub host: HostNo,
    /// The host's name.
    pub name: Text,
    pub play: PlayNo,
    pub place: Place,
    /// The item's number in its loop, from 0; 0 where there is no loop.
    pub item: u32,
    /// Which attempt at the item it is, from 1. See Ansible's documentation, "Retrying a task until a condition is met".
    pub attempt: u32,
    /// How many seconds to wait before it is run; 0 at the first attempt.
    pub delay: u32,
    /// Where it is run: the host's name, or that of its delegate.
    pub target: Text,
    /// The words that connect to the target, empty where it has none.
    pub connector: Items<Text>,
    pub call: Call,
}

/// What came of a job, for the one who sent it.
#[derive(Drop)]
pub struct Report {
    pub ticket: Ticket,
    pub host: HostNo,
    pub item: u32,
    /// Which attempt at the item it was.
    pub attempt: u32,
    pub outcome: Outcome,
}

/// A kind of runner, by the outcomes that it may give for a job.
pub trait Allows {
    ghost use Rattle.pb_outcome.specs.declared.job.Job.{Job};
    ghost use Rattle.pb_outcome.specs.declared.outcome.Form.{Form};

    ghost allows: { Job → Form → Type 0 };
}
