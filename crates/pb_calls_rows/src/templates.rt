//! Templates that are rendered.

use pb_expr_eval::eval::{render, render_prepared};
use pb_layers::layers::{Layers, Magic};
use pb_layers::lent::Merged;
use pb_layers::scope::Scope;
use pb_prepared::dict::PreparedDict;
use pb_prepared::prepared::{Prepared, PreparedText};
use pb_template::template::Template;
use pb_value::text::Text;
use pb_value::val::{Dict, Val};
use std::alloc::Global;
use std::test::Fail;

/// Layers of which the play's alone has variables.
fn layers_of<'a>(none: &'a Dict, play_variables: &'a Dict) -> Layers<'a> {
    let group_variables = Merged::Kept(none);
    Layers {
        role_defaults: none,
        group_variables,
        host_variables: none,
        host_facts: none,
        play_variables,
        role_variables: none,
        block_variables: none,
        task_variables: none,
        set_facts: none,
        role_parameters: none,
        extra_variables: none,
        plain: "",
    }
}

/// What a template gives in these layers, as a text.
fn rendered_in<'a>(
    alloc: Global,
    layers: &'a Layers<'_>,
    magic: &'a Magic<'a>,
    none: &'a Dict,
    template: &Template,
) -> Result<String, Fail> {
    match render(alloc, template, &Scope::new(layers, magic, none)) {
        Ok(value) => Ok(value.text_of(alloc)?),
        Err(_) => Err(Fail::new("a value")),
    }
}

/// The same of a value whose template was parsed before.
fn prepared_in<'a>(
    alloc: Global,
    layers: &'a Layers<'_>,
    magic: &'a Magic<'a>,
    none: &'a Dict,
    prepared: &Prepared,
) -> Result<String, Fail> {
    match render_prepared(alloc, prepared, &Scope::new(layers, magic, none)) {
        Ok(value) => Ok(value.text_of(alloc)?),
        Err(_) => Err(Fail::new("a value")),
    }
}

/// No magic variables.
fn no_magic<'a>(none: &'a Dict) -> Magic<'a> {
    Magic {
        host: None,
        play: none,
        plan: none,
        hosts: none,
    }
}

/// What a prepared value gives where only a play has variables, as a text.
fn prepared(alloc: Global, variables: &Dict, value: &Prepared) -> Result<String, Fail> {
    let none = Dict::new(alloc);
    let layers = layers_of(&none, variables);
    prepared_in(alloc, &layers, &no_magic(&none), &none, value)
}

/// What a template gives where only a play has variables, as a text.
fn rendered(alloc: Global, variables: &Dict, text: &str) -> Result<String, Fail> {
    let none = Dict::new(alloc);
    let layers = layers_of(&none, variables);
    let Ok(template) = Template::parse(alloc, text) else {
        return Err(Fail::new("a template"));
    };
    rendered_in(alloc, &layers, &no_magic(&none), &none, &template)
}

#[test]
fn a_template(rt: HostRuntime) -> Result<(), Fail> {
    let alloc = rt.alloc();
    let mut variables = Dict::new(alloc);
    variables.put(alloc, "name", Val::text(Text::from_str(alloc, "web1")?))?;
    assert_eq!(rt;
        rendered(alloc, &variables, "host {{ name }}!")?.as_str(),
        "host web1!"
    );
    assert_eq!(rt;
        rendered(alloc, &variables, "{{ name ~ '.lan' }}")?.as_str(),
        "web1.lan"
    );
    Ok(())
}

#[test]
fn a_prepared_text(rt: HostRuntime) -> Result<(), Fail> {
    let alloc = rt.alloc();
    let mut variables = Dict::new(alloc);
    variables.put(alloc, "name", Val::text(Text::from_str(alloc, "web1")?))?;
    let text = Val::text(Text::from_str(alloc, "host {{ name }}!")?);
    let value = Prepared::of(alloc, text);
    assert!(rt; value.template().is_some());
    assert_eq!(rt; prepared(alloc, &variables, &value)?.as_str(), "host web1!");
    Ok(())
}

#[test]
fn copies_of_prepared_texts(rt: HostRuntime) -> Result<(), Fail> {
    let alloc = rt.alloc();
    let mut variables = Dict::new(alloc);
    variables.put(alloc, "name", Val::text(Text::from_str(alloc, "web1")?))?;
    let text = PreparedText::of(alloc, Text::from_str(alloc, "host {{ name }}!")?);
    let copy = text.try_clone(alloc)?;
    assert_eq!(rt; copy.as_str(), "host {{ name }}!");
    let value = copy.prepared().try_clone(alloc)?;
    assert!(rt; value.template().is_some());
    assert_eq!(rt; prepared(alloc, &variables, &value)?.as_str(), "host web1!");
    Ok(())
}

#[test]
fn a_prepared_dict(rt: HostRuntime) -> Result<(), Fail> {
    let alloc = rt.alloc();
    let mut variables = Dict::new(alloc);
    variables.put(alloc, "name", Val::text(Text::from_str(alloc, "web1")?))?;
    let mut facts = Dict::new(alloc);
    let text = Val::text(Text::from_str(alloc, "host {{ name }}!")?);
    facts.put(alloc, "greeting", text)?;
    let facts = PreparedDict::of(alloc, facts);
    let Some(row) = facts.row() else {
        return Err(Fail::new("a row"));
    };
    let Some(value) = row.values.as_slice().get(0) else {
        return Err(Fail::new("a value"));
    };
    assert!(rt; value.template().is_some());
    assert_eq!(rt; prepared(alloc, &variables, value)?.as_str(), "host web1!");
    Ok(())
}
