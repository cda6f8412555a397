ghost use Rattle.std.specs.Prelude.{◌≡◌, ◌<◌, IfOk, OnOk, OnErr, Some, length, replicate};
ghost use Rattle.pb_facts.specs.Facts.{no_facts, merged, with_set, with_registered};
ghost use Rattle.pb_facts.specs.Book.{row_of, changed_at, shared};

use crate::facts::Facts;
use pb_ids::HostNo;
use pb_value::val::{Dict, Val};
use std::alloc::{AllocError, Global};
use std::marker::Model;

/// What each host has learnt, by its number.
#[derive(Drop)]
pub struct FactBook {
    rows: Vec<Facts>,
}

impl Model for FactBook {
    ghost use Rattle.std.specs.Prelude.{List};
    ghost use Rattle.std.specs.Coded.{codes};
    ghost use Rattle.pb_value.specs.contracts.val.Dict as dict;
    ghost use Rattle.pb_facts.specs.Facts.{FactsOf};

    ghost Value = { List FactsOf };

    ghost coded = { Prim.hlevel (codes, dict.the_row.coded) };

    ghost view = { λ b. b.rows.items };
}

impl FactBook {
    /// So many hosts, which have learnt nothing.
    pub fn new(alloc: Global, hosts: usize) -> Result<FactBook, AllocError>
        ensures { IfOk result (λ book. book ≡ replicate hosts no_facts) }
    {
        let mut rows = Vec::with_capacity(alloc, hosts)?;
        for _ in 0..hosts {
            rows.push(Facts::new(alloc))?;
        }
        Ok(FactBook { rows })
    }

    /// What a host has learnt.
    pub fn row(&self, host: HostNo) -> &Facts
        requires { host.0 < length self.now }
        ensures { result.now ≡ row_of self.now host.0 }
    {
        &self.rows[host.0 as usize]
    }

    /// Takes in facts that were gathered of a host. An `Err` changes nothing.
    pub fn merge(&mut self, alloc: Global, host: HostNo, given: &Dict) -> Result<(), AllocError>
        requires { host.0 < length self.old }
        ensures ok { OnOk result (self.new ≡ changed_at self.old host.0 (merged given.now)) }
        ensures err { OnErr result (self.new ≡ self.old) }
    {
        self.rows[host.0 as usize].merge(alloc, given)
    }

    /// Takes in facts that were set for a host. An `Err` changes nothing.
    pub fn set(&mut self, alloc: Global, host: HostNo, given: &Dict) -> Result<(), AllocError>
        requires { host.0 < length self.old }
        ensures ok { OnOk result (self.new ≡ changed_at self.old host.0 (with_set given.now)) }
        ensures err { OnErr result (self.new ≡ self.old) }
    {
        self.rows[host.0 as usize].set(alloc, given)
    }

    /// Takes in a task's result under the name that it is registered under. An `Err` changes nothing.
    pub fn register(
        &mut self,
        alloc: Global,
        host: HostNo,
        name: &str,
        shown: Val,
    ) -> Result<(), AllocError>
        requires { host.0 < length self.old }
        ensures ok { OnOk result (self.new ≡ changed_at self.old host.0 (with_registered (Some name.now) shown)) }
        ensures err { OnErr result (self.new ≡ self.old) }
    {
        self.rows[host.0 as usize].register(alloc, Some(name), shown)
    }

    /// Registers for a host what stands under a name of another one, as the result of a task that ran on that one alone. An `Err`
    /// changes nothing.
    pub fn share(
        &mut self,
        alloc: Global,
        from: HostNo,
        to: HostNo,
        name: &str,
    ) -> Result<(), AllocError>
        requires from_host { from.0 < length self.old }
        requires to_host { to.0 < length self.old }
        ensures ok { OnOk result (self.new ≡ changed_at self.old to.0 (shared name.now (row_of self.old from.0))) }
        ensures err { OnErr result (self.new ≡ self.old) }
    {
        let value = match self.rows[from.0 as usize].set_layer().get(name) {
            Some(value) => value.try_clone(alloc)?,
            None => return Ok(()),
        };
        self.register(alloc, to, name, value)
    }
}
