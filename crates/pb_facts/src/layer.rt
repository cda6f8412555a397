//! The layer of variables in which the gathered facts of a host are seen.

ghost use Rattle.std.specs.Prelude.{◌≡◌, [], Some, None, IfOk, unwrap_or};
ghost use Rattle.pb_value.specs.Datum.{named};
ghost use Rattle.pb_facts.specs.Facts.{gathered_layer, put_all};

use crate::put::put_all;
use crate::reading::{gathered_in, names_are_ordered};
use crate::update::put_entries;
use pb_value::val::{Dict, Val};
use std::alloc::{AllocError, Global};
use std::marker::Model;

/// The layer of gathered facts: each under its own name, and all of them as `ansible_facts`; empty until there are some. Contracts see
/// the facts, or that there are none.
#[derive(Drop)]
pub struct GatheredLayer {
    layer: Dict,
}

impl Model for GatheredLayer {
    ghost use Rattle.std.specs.Prelude.{◌≡◌, Option};
    ghost use Rattle.std.specs.Coded.{codes};
    ghost use Rattle.pb_value.specs.contracts.val.Dict as dict;
    ghost use Rattle.pb_layers.specs.Scope.{Map};
    ghost use Rattle.pb_facts.specs.Facts.{gathered_layer, gathered_in};

    ghost Value = { Option Map };

    ghost coded = { Prim.hlevel (codes, dict.the_row.coded) };

    ghost view = { λ l. gathered_in l.layer };

    ghost invariant = { λ l. l.layer ≡ gathered_layer (gathered_in l.layer) };
}

/// The layer of these gathered facts.
fn layer_of(alloc: Global, gathered: Dict) -> Result<Dict, AllocError>
    ensures { IfOk result (λ layer. layer ≡ gathered_layer (Some gathered)) }
{
    let mut layer = gathered.try_clone(alloc)?;
    layer.put(alloc, "ansible_facts", Val::dict(gathered))?;
    Ok(layer)
}

impl GatheredLayer {
    ghost use Rattle.pb_facts.specs.Update.{GatheredUnder};

    /// The layer of a host of which no facts were gathered.
    pub(crate) fn none(alloc: Global) -> GatheredLayer
        ensures { result ≡ None }
    {
        GatheredLayer {
            layer: Dict::new(alloc),
        }
    }

    /// The layer of these facts.
    fn of(alloc: Global, facts: Dict) -> Result<GatheredLayer, AllocError>
        ensures { IfOk result (λ made. made ≡ Some facts) }
    {
        let layer = layer_of(alloc, facts)?;
        Ok(GatheredLayer { layer })
    }

    /// A copy of it.
    pub(crate) fn try_clone(&self, alloc: Global) -> Result<GatheredLayer, AllocError>
        ensures { IfOk result (λ copy. copy ≡ self.now) }
    {
        let layer = self.layer.try_clone(alloc)?;
        Ok(GatheredLayer { layer })
    }

    /// The variables themselves.
    pub(crate) fn variables(&self) -> &Dict
        ensures { result.now ≡ gathered_layer self.now }
    {
        &self.layer
    }

    /// A copy of the facts, or none.
    fn facts_before(&self, alloc: Global) -> Result<Dict, AllocError>
        ensures { IfOk result (λ facts. facts ≡ unwrap_or self.now []) }
    {
        match gathered_in(&self.layer) {
            Some(gathered) => gathered.try_clone(alloc),
            None => Ok(Dict::new(alloc)),
        }
    }

    /// The layer once these facts came over those that were gathered.
    pub(crate) fn merged(&self, alloc: Global, given: &Dict) -> Result<GatheredLayer, AllocError>
        ensures { IfOk result (λ made. made ≡ Some (put_all given.now (unwrap_or self.now []))) }
    {
        let mut facts = self.facts_before(alloc)?;
        put_all(alloc, &mut facts, given)?;
        GatheredLayer::of(alloc, facts)
    }

    /// The layer once facts came under these names, one after another, over those that were gathered; and what was gathered there.
    pub(crate) fn with_entries(
        &self,
        alloc: Global,
        entries: Vec<(String, Val)>,
    ) -> Result<(GatheredLayer, Vec<(String, Option<Val>)>), AllocError>
        ensures facts { IfOk result (λ made. made.0 ≡ Some (put_all (named entries.items) (unwrap_or self.now []))) }
        ensures log { IfOk result (λ made. GatheredUnder (named made.1.items) self.now made.0) }
    {
        let mut facts = self.facts_before(alloc)?;
        names_are_ordered(&facts);
        let log = put_entries(alloc, &mut facts, entries)?;
        let layer = GatheredLayer::of(alloc, facts)?;
        Ok((layer, log))
    }
}
