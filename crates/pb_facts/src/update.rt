//! What a host learns, and what was before.

ghost use Rattle.std.specs.Prelude.{◌≡◌, ◌-◌, ◌∷◌, ◌++◌, [], OnOk, OnErr, IfOk, string_bytes, length};
ghost use Rattle.std.specs.Option.{option_copied};
ghost use Rattle.pb_value.specs.Datum.{named, put};
ghost use Rattle.pb_layers.specs.Scope.{Map};
ghost use Rattle.pb_facts.specs.Facts.{FactsOf, put_all, given_in, learnt, merged, with_given, with_registered, with_set};
ghost use Rattle.pb_facts.specs.Update.{entries_in, gives_some, registered_entries, applied, IsBetween, IsUndo, LeadsTo};

use crate::facts::{Facts, Gives};
use crate::layer::GatheredLayer;
use crate::reading::facts_in;
use crate::stands::{replace, restore};
use pb_outcome::item::{Item, Planned};
use pb_value::val::{Dict, Val};
use std::alloc::{AllocError, Global};

/// What a host learns.
pub enum FactsUpdate {
    Nothing,
    /// Values under their names, which come one after another over what was set and registered.
    More(Vec<(String, Val)>),
    /// The same, and facts under their names, which come one after another over those that were gathered.
    Gathered {
        more: Vec<(String, Val)>,
        facts: Vec<(String, Val)>,
    },
}

// (by hand: the crates above then let it go by one call, and know nothing of what it is made of)
impl Drop for FactsUpdate {
    fn drop(self) {
        match self {
            FactsUpdate::Nothing => {}
            FactsUpdate::More(entries) => drop(entries),
            FactsUpdate::Gathered { more, facts } => {
                drop(more);
                drop(facts);
            }
        }
    }
}

/// What was before a host learnt something.
pub enum FactsUndo {
    Nothing,
    /// The names under which values came, in order, with what stood there.
    Stood(Vec<(String, Option<Val>)>),
    /// The same; the names under which facts came, in order, with what was gathered there; and the layer of gathered facts that was before.
    Gathered {
        stood: Vec<(String, Option<Val>)>,
        facts: Vec<(String, Option<Val>)>,
        layer: GatheredLayer,
    },
}

// (by hand, as above)
impl Drop for FactsUndo {
    fn drop(self) {
        match self {
            FactsUndo::Nothing => {}
            FactsUndo::Stood(log) => drop(log),
            FactsUndo::Gathered {
                stood,
                facts,
                layer,
            } => {
                drop(stood);
                drop(facts);
                drop(layer);
            }
        }
    }
}

impl FactsUpdate {
    /// A host that knows this learns it. What was before is handed back. An `Err` changes nothing.
    pub(crate) fn put_into(self, alloc: Global, known: &mut Facts) -> Result<FactsUndo, AllocError>
        ensures ok { OnOk result (known.new ≡ applied self known.old) }
        ensures past { IfOk result (λ past. IsUndo past known.old known.new) }
        ensures between { IfOk result (λ past. IsBetween past known.old known.new) }
        ensures err { OnErr result (known.new ≡ known.old) }
    {
        match self {
            FactsUpdate::Nothing => Ok(FactsUndo::Nothing),
            FactsUpdate::More(entries) => known.put_more(alloc, entries),
            FactsUpdate::Gathered { more, facts } => known.put_gathered(alloc, more, facts),
        }
    }

    /// These values, and then this.
    fn behind_values(self, first: Vec<(String, Val)>) -> Result<FactsUpdate, AllocError>
        ensures { IfOk result (λ both. (facts : FactsOf) → applied both facts ≡ applied self (with_set (named first.items) facts)) }
    {
        match self {
            FactsUpdate::Nothing => Ok(FactsUpdate::More(first)),
            FactsUpdate::More(entries) => {
                let more = joined(first, entries)?;
                Ok(FactsUpdate::More(more))
            }
            FactsUpdate::Gathered { more, facts } => {
                let more = joined(first, more)?;
                Ok(FactsUpdate::Gathered { more, facts })
            }
        }
    }

    /// These values, these facts that were gathered, and then this.
    fn behind_facts(
        self,
        first: Vec<(String, Val)>,
        given: Vec<(String, Val)>,
    ) -> Result<FactsUpdate, AllocError>
        ensures { IfOk result (λ both. (known : FactsOf) → applied both known ≡ applied self (merged (named given.items) (with_set (named first.items) known))) }
    {
        match self {
            FactsUpdate::Nothing => Ok(FactsUpdate::Gathered {
                more: first,
                facts: given,
            }),
            FactsUpdate::More(entries) => {
                let more = joined(first, entries)?;
                Ok(FactsUpdate::Gathered { more, facts: given })
            }
            FactsUpdate::Gathered { more, facts } => {
                let more = joined(first, more)?;
                let facts = joined(given, facts)?;
                Ok(FactsUpdate::Gathered { more, facts })
            }
        }
    }

    /// This, and then the other.
    pub fn join(self, next: FactsUpdate) -> Result<FactsUpdate, AllocError>
        ensures { IfOk result (λ both. (facts : FactsOf) → applied both facts ≡ applied next (applied self facts)) }
    {
        match self {
            FactsUpdate::Nothing => Ok(next),
            FactsUpdate::More(first) => next.behind_values(first),
            FactsUpdate::Gathered { more, facts } => next.behind_facts(more, facts),
        }
    }
}

impl FactsUndo {
    /// What was before a host learnt something is what it knows again. It takes no memory.
    #[tactic(auto, using(crate::proofs::Heard::back_nothing, crate::proofs::Heard::back_stood, crate::proofs::Heard::back_gathered))]
    pub(crate) fn put_into(self, known: &mut Facts)
        ensures { (was : FactsOf) → IsUndo self was known.old → known.new ≡ was }
    {
        match self {
            FactsUndo::Nothing => {}
            FactsUndo::Stood(log) => known.put_set_back(log),
            FactsUndo::Gathered {
                stood,
                facts,
                layer,
            } => {
                drop(facts);
                known.put_both_back(stood, layer);
            }
        }
    }
}

/// Entries, and then others. They move, none is copied.
fn joined(
    first: Vec<(String, Val)>,
    next: Vec<(String, Val)>,
) -> Result<Vec<(String, Val)>, AllocError>
    ensures { IfOk result (λ both. both.items ≡ first.items ++ next.items) }
{
    let mut both = first;
    for entry in next {
        both.push(entry)?;
    }
    Ok(both)
}

/// One entry more: a value under a copy of a name.
#[tactic(auto, using(crate::proofs::Applying::entry_more))]
fn push_entry(
    alloc: Global,
    entries: &mut Vec<(String, Val)>,
    name: &str,
    value: Val,
) -> Result<(), AllocError>
    ensures { OnOk result (named entries.new.items ≡ named entries.old.items ++ (name.now, value) ∷ []) }
{
    let copy = String::from_str(alloc, name)?;
    entries.push((copy, value))?;
    Ok(())
}

/// A copy of each value under its name.
#[tactic(auto, using(crate::proofs::Applying::rest_on))]
fn push_all(alloc: Global, entries: &mut Vec<(String, Val)>, given: &Dict) -> Result<(), AllocError>
    ensures { OnOk result (named entries.new.items ≡ named entries.old.items ++ given.now) }
{
    for (name, value) in given.iter() {
        push_entry(alloc, entries, name.as_str(), value.try_clone(alloc)?)?;
    }
    Ok(())
}

/// A copy of each value under its name, and no other entries.
#[tactic(auto, using(crate::proofs::Applying::entries_all))]
fn copied(alloc: Global, given: &Dict) -> Result<Vec<(String, Val)>, AllocError>
    ensures { IfOk result (λ entries. named entries.items ≡ given.now) }
{
    let mut entries = Vec::new(alloc);
    push_all(alloc, &mut entries, given)?;
    Ok(entries)
}

/// The facts of the items that have some, in order.
#[tactic(auto, using(crate::proofs::Applying::facts_on))]
fn push_each(
    alloc: Global,
    entries: &mut Vec<(String, Val)>,
    items: &[Item],
) -> Result<(), AllocError>
    ensures { OnOk result (named entries.new.items ≡ named entries.old.items ++ entries_in (given_in items.now)) }
{
    for item in items {
        if let Planned::Decided(result) = &item.step {
            if let Some(given) = facts_in(&result.result) {
                push_all(alloc, entries, given)?;
            }
        }
    }
    Ok(())
}

/// The facts of the items that have some, in order, and no other entries.
#[tactic(auto, using(crate::proofs::Applying::entries_all))]
fn facts_of(alloc: Global, items: &[Item]) -> Result<Vec<(String, Val)>, AllocError>
    ensures { IfOk result (λ entries. named entries.items ≡ entries_in (given_in items.now)) }
{
    let mut all = Vec::new(alloc);
    push_each(alloc, &mut all, items)?;
    Ok(all)
}

/// Whether some item gives facts.
fn gives_some(items: &[Item]) -> bool
    ensures { result ≡ gives_some (given_in items.now) }
{
    for item in items {
        if let Planned::Decided(result) = &item.step {
            if facts_in(&result.result).is_some() {
                return true;
            }
        }
    }
    false
}

/// A value comes under a name; what stood there is put down in the log, for which there is room first.
#[tactic(auto, using(crate::proofs::Applying::leads_on, crate::proofs::Applying::leads_same))]
fn put_one(
    set: &mut Dict,
    log: &mut Vec<(String, Option<Val>)>,
    name: String,
    value: Val,
) -> Result<(), AllocError>
    ensures ok { OnOk result (set.new ≡ put (string_bytes name) value set.old) }
    ensures log { (was : Map) → LeadsTo (named log.old.items) was set.old → LeadsTo (named log.new.items) was set.new }
{
    let copy = name.clone()?;
    log.reserve(1)?;
    let before = replace(set, name, value)?;
    match log.push((copy, before)) {
        Ok(()) => Ok(()),
        Err(_) => unreachable!(),
    }
}

/// Values come under their names, as far as memory goes: the log tells how far.
#[tactic(auto, using(crate::proofs::Applying::put_step))]
fn put_some(
    set: &mut Dict,
    log: &mut Vec<(String, Option<Val>)>,
    entries: Vec<(String, Val)>,
) -> Result<(), AllocError>
    ensures ok { OnOk result (set.new ≡ put_all (named entries.items) set.old) }
    ensures log { (was : Map) → LeadsTo (named log.old.items) was set.old → LeadsTo (named log.new.items) was set.new }
{
    for (name, value) in entries {
        put_one(set, log, name, value)?;
    }
    Ok(())
}

/// What came last is taken back.
#[tactic(auto, using(crate::proofs::Applying::leads_back))]
fn put_last_back(set: &mut Dict, log: &mut Vec<(String, Option<Val>)>)
    ensures back { (was : Map) → LeadsTo (named log.old.items) was set.old → LeadsTo (named log.new.items) was set.new }
    ensures fewer { length log.new.items ≡ length log.old.items - 1 }
{
    if let Some(last) = log.pop() {
        let (name, before) = last;
        restore(set, name, before);
    }
}

/// What stood under these names stands there again. It takes no memory.
#[tactic(auto, using(crate::proofs::Applying::leads_end))]
pub(crate) fn put_back(set: &mut Dict, log: Vec<(String, Option<Val>)>)
    ensures { (was : Map) → LeadsTo (named log.items) was set.old → set.new ≡ was }
{
    let mut left = log;
    let count = left.len();
    for _ in 0..count {
        put_last_back(set, &mut left);
    }
}

/// Values come under their names. What stood there is handed back. An `Err` changes nothing.
pub(crate) fn put_entries(
    alloc: Global,
    set: &mut Dict,
    entries: Vec<(String, Val)>,
) -> Result<Vec<(String, Option<Val>)>, AllocError>
    ensures ok { OnOk result (set.new ≡ put_all (named entries.items) set.old) }
    ensures log { IfOk result (λ log. LeadsTo (named log.items) set.old set.new) }
    ensures err { OnErr result (set.new ≡ set.old) }
{
    let mut log = Vec::new(alloc);
    match put_some(set, &mut log, entries) {
        Ok(()) => Ok(log),
        Err(error) => {
            put_back(set, log);
            Err(error)
        }
    }
}

/// The entry under which a task registers its result, if it registers it.
fn first_entries(
    alloc: Global,
    register: Option<&str>,
    shown: Val,
) -> Result<Vec<(String, Val)>, AllocError>
    ensures { IfOk result (λ entries. named entries.items ≡ registered_entries (option_copied register.entry) shown) }
{
    let mut entries = Vec::new(alloc);
    match register {
        Some(name) => push_entry(alloc, &mut entries, name, shown)?,
        None => drop(shown),
    }
    Ok(entries)
}

/// What a host learns that knows this, of a task that gives nothing.
#[tactic(auto, using(crate::proofs::Learnt::registered_applied))]
fn registered_update(
    alloc: Global,
    register: Option<&str>,
    shown: Val,
    facts: &Facts,
) -> Result<FactsUpdate, AllocError>
    ensures { IfOk result (λ update. applied update facts.now ≡ with_registered (option_copied register.entry) shown facts.now) }
{
    // (what only the clause speaks of)
    let _facts = facts;
    match register {
        Some(_) => {
            let entries = first_entries(alloc, register, shown)?;
            Ok(FactsUpdate::More(entries))
        }
        None => Ok(FactsUpdate::Nothing),
    }
}

/// The same of a task that sets the facts of its items.
#[tactic(auto, using(crate::proofs::Learnt::set_applied))]
fn set_update(
    alloc: Global,
    register: Option<&str>,
    shown: Val,
    items: &[Item],
    facts: &Facts,
) -> Result<FactsUpdate, AllocError>
    ensures { IfOk result (λ update. applied update facts.now ≡ learnt Gives.Sets (option_copied register.entry) shown items.now facts.now) }
{
    // (what only the clause speaks of)
    let _facts = facts;
    let mut entries = first_entries(alloc, register, shown)?;
    push_each(alloc, &mut entries, items)?;
    Ok(FactsUpdate::More(entries))
}

/// The same of a task that gathers facts: where no item has some, those gathered before stay.
#[tactic(auto, using(crate::proofs::Learnt::none_applied, crate::proofs::Learnt::gathered_applied))]
fn gathered_update(
    alloc: Global,
    register: Option<&str>,
    shown: Val,
    items: &[Item],
    facts: &Facts,
) -> Result<FactsUpdate, AllocError>
    ensures { IfOk result (λ update. applied update facts.now ≡ learnt Gives.Gathers (option_copied register.entry) shown items.now facts.now) }
{
    // (what only the clause speaks of)
    let _facts = facts;
    let more = first_entries(alloc, register, shown)?;
    if gives_some(items) {
        let given = facts_of(alloc, items)?;
        Ok(FactsUpdate::Gathered { more, facts: given })
    } else {
        Ok(FactsUpdate::More(more))
    }
}

/// What a host learns that knows this, of a finished task: its result under the name that it registers, if it does, and then the facts of its items.
#[tactic(auto, using(crate::proofs::Learnt::nothing_learnt))]
pub fn update_of(
    alloc: Global,
    gives: Gives,
    register: Option<&str>,
    shown: Val,
    items: &[Item],
    facts: &Facts,
) -> Result<FactsUpdate, AllocError>
    ensures { IfOk result (λ update. applied update facts.now ≡ learnt gives (option_copied register.entry) shown items.now facts.now) }
{
    match gives {
        Gives::Nothing => registered_update(alloc, register, shown, facts),
        Gives::Sets => set_update(alloc, register, shown, items, facts),
        Gives::Gathers => gathered_update(alloc, register, shown, items, facts),
    }
}

/// What a host learns that is given facts to be set.
#[tactic(auto, using(crate::proofs::Joined::gift_set))]
fn set_gift(alloc: Global, given: &Dict) -> Result<FactsUpdate, AllocError>
    ensures { IfOk result (λ update. (facts : FactsOf) → applied update facts ≡ with_set given.now facts) }
{
    let more = copied(alloc, given)?;
    Ok(FactsUpdate::More(more))
}

/// What a host learns that is given facts that were gathered.
#[tactic(auto, using(crate::proofs::Joined::gift_gathered))]
fn gathered_gift(alloc: Global, given: &Dict) -> Result<FactsUpdate, AllocError>
    ensures { IfOk result (λ update. (facts : FactsOf) → applied update facts ≡ merged given.now facts) }
{
    let facts = copied(alloc, given)?;
    let more = Vec::new(alloc);
    Ok(FactsUpdate::Gathered { more, facts })
}

/// What a host learns that is given these facts in this way, whatever it knows.
pub fn gift_update(alloc: Global, gives: Gives, given: &Dict) -> Result<FactsUpdate, AllocError>
    ensures { IfOk result (λ update. (facts : FactsOf) → applied update facts ≡ with_given gives given.now facts) }
{
    match gives {
        Gives::Nothing => Ok(FactsUpdate::Nothing),
        Gives::Sets => set_gift(alloc, given),
        Gives::Gathers => gathered_gift(alloc, given),
    }
}
