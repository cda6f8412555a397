ghost use Rattle.std.specs.Prelude.{◌≡◌, IfOk, OnOk, OnErr};
ghost use Rattle.std.specs.Option.{option_copied};
ghost use Rattle.pb_value.specs.Datum.{named};
ghost use Rattle.pb_facts.specs.Facts.{no_facts, gathered_layer, merged, with_set, with_registered, learnt, known_of};

use crate::layer::GatheredLayer;
use crate::put::put_all;
use crate::reading::names_are_ordered;
use crate::update::{FactsUndo, FactsUpdate, put_back, put_entries, update_of};
use pb_outcome::item::Item;
use pb_value::val::{Dict, Val};
use std::alloc::{AllocError, Global};
use std::marker::Model;
use std::mem;

/// What a module gives beside its result.
#[derive(Clone, Copy, Debug, PartialEq, Eq)]
pub enum Gives {
    Nothing,
    /// Facts that are set, as `set_fact` does.
    Sets,
    /// Facts that are gathered, as `setup` does.
    Gathers,
}

/// What a host has learnt in the run.
#[derive(Drop)]
pub struct Facts {
    /// What was gathered, as the layer in which it is seen.
    layer: GatheredLayer,
    /// What was set and registered.
    set: Dict,
}

impl Model for Facts {
    ghost use Rattle.std.specs.Coded.{codes};
    ghost use Rattle.pb_value.specs.contracts.val.Dict as dict;
    ghost use Rattle.pb_facts.specs.Facts.{FactsOf};

    ghost Value = { FactsOf };

    ghost coded = { Prim.hlevel (codes, dict.the_row.coded) };

    ghost view = { λ f. record { gathered = f.layer; set = f.set } };
}

impl Facts {
    ghost use Rattle.pb_facts.specs.Facts.{FactsOf};
    ghost use Rattle.pb_facts.specs.Update.{applied, IsUndo, IsBetween, LeadsTo};

    /// A host that has learnt nothing.
    pub fn new(alloc: Global) -> Facts
        ensures { result ≡ no_facts }
    {
        Facts {
            layer: GatheredLayer::none(alloc),
            set: Dict::new(alloc),
        }
    }

    /// A copy of it.
    pub fn try_clone(&self, alloc: Global) -> Result<Facts, AllocError>
        ensures { IfOk result (λ f. f ≡ self.now) }
    {
        let layer = self.layer.try_clone(alloc)?;
        let set = self.set.try_clone(alloc)?;
        Ok(Facts { layer, set })
    }

    /// The layer of gathered facts (4): each under its own name, and all of them as `ansible_facts`; nothing until there are some.
    pub fn gathered_layer(&self) -> &Dict
        ensures { result.now ≡ gathered_layer self.now.gathered }
    {
        self.layer.variables()
    }

    /// The layer of what was set and registered (9).
    pub fn set_layer(&self) -> &Dict
        ensures { result.now ≡ self.now.set }
    {
        &self.set
    }

    /// Takes in facts that were gathered, over those gathered before. An `Err` changes nothing.
    pub fn merge(&mut self, alloc: Global, given: &Dict) -> Result<(), AllocError>
        ensures ok { OnOk result (self.new ≡ merged given.now self.old) }
        ensures err { OnErr result (self.new ≡ self.old) }
    {
        let layer = self.layer.merged(alloc, given)?;
        self.layer = layer;
        Ok(())
    }

    /// Takes in facts that were set, over those set and registered before. An `Err` changes nothing.
    pub fn set(&mut self, alloc: Global, given: &Dict) -> Result<(), AllocError>
        ensures ok { OnOk result (self.new ≡ with_set given.now self.old) }
        ensures err { OnErr result (self.new ≡ self.old) }
    {
        let mut set = self.set.try_clone(alloc)?;
        put_all(alloc, &mut set, given)?;
        self.set = set;
        Ok(())
    }

    /// Takes in a task's result under the name that it is registered under, if it is. An `Err` changes nothing.
    pub fn register(
        &mut self,
        alloc: Global,
        name: Option<&str>,
        shown: Val,
    ) -> Result<(), AllocError>
        ensures ok { OnOk result (self.new ≡ with_registered (option_copied name.entry) shown self.old) }
        ensures err { OnErr result (self.new ≡ self.old) }
    {
        match name {
            Some(name) => self.set.put(alloc, name, shown),
            None => Ok(()),
        }
    }

    /// Takes in what a finished task leaves with its host: its result under the name that it is registered under, if it is, and then
    /// the facts of its items, in order. An `Err` changes nothing.
    pub fn learn(
        &mut self,
        alloc: Global,
        gives: Gives,
        register: Option<&str>,
        shown: Val,
        items: &[Item],
    ) -> Result<(), AllocError>
        ensures ok { OnOk result (self.new ≡ learnt gives (option_copied register.entry) shown items.now self.old) }
        ensures err { OnErr result (self.new ≡ self.old) }
    {
        let update = update_of(alloc, gives, register, shown, items, self)?;
        drop(self.apply(alloc, update)?);
        Ok(())
    }

    /// Values come under their names, over those set and registered before. What stood there is handed back. An `Err` changes nothing.
    pub(crate) fn put_more(
        &mut self,
        alloc: Global,
        entries: Vec<(String, Val)>,
    ) -> Result<FactsUndo, AllocError>
        ensures ok { OnOk result (self.new ≡ with_set (named entries.items) self.old) }
        ensures past { IfOk result (λ past. IsUndo past self.old self.new) }
        ensures between { IfOk result (λ past. IsBetween past self.old self.new) }
        ensures err { OnErr result (self.new ≡ self.old) }
    {
        names_are_ordered(&self.set);
        let log = put_entries(alloc, &mut self.set, entries)?;
        Ok(FactsUndo::Stood(log))
    }

    /// The same, and facts come under theirs, over those gathered before, in a layer that is made anew.
    pub(crate) fn put_gathered(
        &mut self,
        alloc: Global,
        more: Vec<(String, Val)>,
        given: Vec<(String, Val)>,
    ) -> Result<FactsUndo, AllocError>
        ensures ok { OnOk result (self.new ≡ merged (named given.items) (with_set (named more.items) self.old)) }
        ensures past { IfOk result (λ past. IsUndo past self.old self.new) }
        ensures between { IfOk result (λ past. IsBetween past self.old self.new) }
        ensures err { OnErr result (self.new ≡ self.old) }
    {
        let (layer, facts) = self.layer.with_entries(alloc, given)?;
        names_are_ordered(&self.set);
        let stood = put_entries(alloc, &mut self.set, more)?;
        let before = mem::replace(&mut self.layer, layer);
        Ok(FactsUndo::Gathered {
            stood,
            facts,
            layer: before,
        })
    }

    /// Takes in what the host learns, in place. What was before is handed back. An `Err` changes nothing.
    pub fn apply(&mut self, alloc: Global, update: FactsUpdate) -> Result<FactsUndo, AllocError>
        ensures ok { OnOk result (self.new ≡ applied update self.old) }
        ensures past { IfOk result (λ past. IsUndo past self.old self.new) }
        ensures between { IfOk result (λ past. IsBetween past self.old self.new) }
        ensures err { OnErr result (self.new ≡ self.old) }
    {
        update.put_into(alloc, self)
    }

    /// What was set and registered is as it was before values came under names.
    pub(crate) fn put_set_back(&mut self, log: Vec<(String, Option<Val>)>)
        ensures { (was : FactsOf) → was.gathered ≡ self.old.gathered → LeadsTo (named log.items) was.set self.old.set → self.new ≡ was }
    {
        put_back(&mut self.set, log);
    }

    /// The same, and the layer of gathered facts is this one again.
    pub(crate) fn put_both_back(&mut self, stood: Vec<(String, Option<Val>)>, layer: GatheredLayer)
        ensures { (was : FactsOf) → layer ≡ was.gathered → LeadsTo (named stood.items) was.set self.old.set → self.new ≡ was }
    {
        put_back(&mut self.set, stood);
        self.layer = layer;
    }

    /// Puts back what was before the host learnt something. It takes no memory.
    pub fn revert(&mut self, past: FactsUndo)
        ensures { (was : FactsOf) → IsUndo past was self.old → self.new ≡ was }
    {
        past.put_into(self);
    }

    /// What is known of a host beside any play, as it is stored: the variables of its groups, its own, what it has learnt, and the
    /// extra variables, each over those before it.
    pub fn known(
        &self,
        alloc: Global,
        group_variables: &Dict,
        host_variables: &Dict,
        extra: &Dict,
    ) -> Result<Dict, AllocError>
        ensures { IfOk result (λ known. known ≡ known_of group_variables.now host_variables.now self.now extra.now) }
    {
        let mut known = group_variables.try_clone(alloc)?;
        put_all(alloc, &mut known, host_variables)?;
        put_all(alloc, &mut known, self.gathered_layer())?;
        put_all(alloc, &mut known, self.set_layer())?;
        put_all(alloc, &mut known, extra)?;
        Ok(known)
    }
}
