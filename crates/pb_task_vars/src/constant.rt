//! Items that are the same whatever their task sees.

ghost use Rattle.std.specs.Prelude.{◌≡◌, ◌≤◌, [], List, length, IfOk, IfSome};
ghost use Rattle.pb_layers.specs.Scope.{Map, layers};
ghost use Rattle.pb_items.specs.Items.{items_of};
ghost use Rattle.pb_items.specs.Loops.{max_items};
ghost use Rattle.pb_task_vars.specs.Results.{start_with};

use crate::site::Site;
use pb_items::constant::is_constant;
use pb_items::items::items;
use pb_items::start::Start;
use pb_layers::layers::{Layers, Magic};
use pb_layers::lent::Merged;
use pb_outcome::item::Item;
use pb_outcome::result_names::ResultNames;
use pb_places::Place;
use pb_value::items::Items;
use pb_value::val::Dict;
use std::alloc::{AllocError, Global};

/// Layers that have this for each of their maps.
fn layers_of<'a>(map: &'a Dict) -> Layers<'a>
    ensures { result ≡ layers map.now map.now map.now map.now map.now map.now map.now map.now map.now map.now map.now }
{
    Layers {
        role_defaults: map,
        group_variables: Merged::Kept(map),
        host_variables: map,
        host_facts: map,
        play_variables: map,
        role_variables: map,
        block_variables: map,
        task_variables: map,
        set_facts: map,
        role_parameters: map,
        extra_variables: map,
        plain: "",
    }
}

/// The items of the task at a place, in a run with a facts program or without, where it sees these variables.
#[tactic(auto, unfolding(crate::specs::Results::start_with))]
fn items_seeing(
    alloc: Global,
    has_facts_program: bool,
    names: &ResultNames,
    place: &Place,
    layers: &Layers,
    magic: &Magic,
) -> Result<Items<Item>, AllocError>
    ensures value { IfOk result (λ items. items ≡ items_of (start_with has_facts_program place.now layers.now magic.now)) }
    ensures few { IfOk result (λ items. length items ≤ max_items) }
{
    let start = Start {
        task: place.task(),
        conditions: place.conditions(),
        delegate_to: place.delegate_to(),
        has_facts_program,
        names,
        layers,
        magic,
    };
    items(alloc, &start)
}

/// The same where it sees nothing.
fn unseeing_items(
    alloc: Global,
    has_facts_program: bool,
    names: &ResultNames,
    place: &Place,
) -> Result<Items<Item>, AllocError>
    ensures value { IfOk result (λ items. items ≡ items_of (start_with has_facts_program place.now (layers [] [] [] [] [] [] [] [] [] [] []) [])) }
    ensures few { IfOk result (λ items. length items ≤ max_items) }
{
    let none = Dict::new(alloc);
    let layers = layers_of(&none);
    let magic = Magic {
        host: None,
        play: &none,
        plan: &none,
        hosts: &none,
    };
    items_seeing(alloc, has_facts_program, names, place, &layers, &magic)
}

impl<'a> Site<'a> {
    /// The items of the task at a place, if they are the same whatever it sees. Then nothing that it sees is made, nor what its host has of its own.
    pub(crate) fn constant_items(
        &self,
        alloc: Global,
        place: &'a Place,
    ) -> Result<Option<Items<Item>>, AllocError>
        ensures value { IfOk result (λ found. IfSome found (λ items. (seen : List Map) (magic : Map) → items ≡ items_of (start_with self.now.plan.now.has_facts_program place.now seen magic))) }
        ensures few { IfOk result (λ found. IfSome found (λ items. length items ≤ max_items)) }
    {
        if !is_constant(place.task(), place.conditions(), place.delegate_to()) {
            return Ok(None);
        }
        let items = unseeing_items(
            alloc,
            self.plan.has_facts_program(),
            self.play.names(),
            place,
        )?;
        Ok(Some(items))
    }
}
