//! The variables of all hosts.
ghost use Rattle.std.specs.Prelude.{◌≡◌, ◌≢◌, ◌<◌, ℕ, List, Some, None, length, IfOk, IfSome, OnOk};
ghost use Rattle.pb_value.specs.Datum.{Datum, null, dict, members_of, named, put, value_at};
ghost use Rattle.pb_facts.specs.Facts.{known_of, gathered_layer};
ghost use Rattle.pb_inventory.specs.Vars.{host_name, vars_from_groups, vars_of_host};
ghost use Rattle.pb_variables.specs.Magic.{variables_of, hostvars_map, hostvars, hosts_magic};
ghost use Rattle.pb_variables.specs.ByName.{value_in, variables_under, variable_of_host};
ghost use Rattle.pb_variables.specs.Learnt.{facts_in};
ghost use Rattle.pb_variables.specs.Between.{put_found, put_name, put_names, put_fact, put_facts, follows, VariablesFollow};
ghost use Rattle.pb_variables.specs.Renewed.{IsRenewedMap, IsRenewedBetween};
ghost use Rattle.pb_facts.specs.Facts.{FactsOf};

use pb_facts::facts::Facts;
use pb_facts::update::FactsUndo;
use pb_ids::HostNo;
use pb_inventory::inventory::Inventory;
use pb_value::val::{Dict, Node, Val};
use std::alloc::{AllocError, Global};

/// Puts a host's variables under the host's name: those from its groups, over them its own, what it has learnt, and over these the extra variables.
fn put_known(
    alloc: Global,
    known: &mut Dict,
    inventory: &Inventory,
    extra: &Dict,
    facts: &Facts,
    host: HostNo,
) -> Result<(), AllocError>
    requires { host.0 < length inventory.now.hosts }
    ensures { OnOk result (known.new ≡ put
        (host_name inventory.now host.0)
        (dict (members_of (known_of (vars_from_groups inventory.now host.0) (vars_of_host inventory.now host.0) facts.now extra.now)))
        known.old) }
{
    let group_variables = inventory.group_vars(alloc, host)?;
    let variables = facts.known(alloc, &group_variables, inventory.host_vars(host), extra)?;
    known.put(alloc, inventory.name(host), Val::dict(variables))
}

/// Puts the variables of a host, which has learnt nothing where the list has no such number.
#[tactic(auto, using(crate::proofs::Learning::there, crate::proofs::Learning::not_there))]
fn put_host(
    alloc: Global,
    known: &mut Dict,
    inventory: &Inventory,
    extra: &Dict,
    learnt: &[&Facts],
    host: HostNo,
) -> Result<(), AllocError>
    requires { host.0 < length inventory.now.hosts }
    ensures { OnOk result (known.new ≡ put
        (host_name inventory.now host.0)
        (dict (members_of (variables_of inventory.now extra.now (facts_in learnt.now) host.0)))
        known.old) }
{
    match learnt.get(host.0 as usize) {
        Some(facts) => put_known(alloc, known, inventory, extra, *facts, host),
        None => put_known(alloc, known, inventory, extra, &Facts::new(alloc), host),
    }
}

fn hostvars_map(
    alloc: Global,
    inventory: &Inventory,
    extra: &Dict,
    learnt: &[&Facts],
) -> Result<Dict, AllocError>
    ensures { IfOk result (λ known. known ≡ hostvars_map inventory.now extra.now (facts_in learnt.now)) }
{
    let mut known = Dict::new(alloc);
    for n in 0..inventory.hosts() {
        put_host(alloc, &mut known, inventory, extra, learnt, HostNo(n))?;
    }
    Ok(known)
}

#[tactic(auto, unfolding(crate::specs::Magic::hostvars))]
fn hosts_value(
    alloc: Global,
    inventory: &Inventory,
    extra: &Dict,
    learnt: &[&Facts],
) -> Result<Val, AllocError>
    ensures { IfOk result (λ hosts. hosts ≡ hostvars inventory.now extra.now (facts_in learnt.now)) }
{
    let known = hostvars_map(alloc, inventory, extra, learnt)?;
    Ok(Val::dict(known))
}

/// What `hostvars` stands for where the hosts, by their numbers, have learnt this: a dict from each host's name to the dict of its variables
/// as they are stored: those from its groups, over them its own, what it has learnt, and over these the extra variables (Ansible's
/// documentation, "Special variables"). Each host's dict has copies of its own, so that it is made where it is asked for alone. The only
/// error is want of memory.
#[tactic(auto, using(crate::proofs::Named::variables_by_name))]
pub fn hostvars(
    alloc: Global,
    inventory: &Inventory,
    extra: &Dict,
    learnt: &[&Facts],
) -> Result<Val, AllocError>
    ensures value { IfOk result (λ hosts. hosts ≡ hostvars inventory.now extra.now (facts_in learnt.now)) }

    // Under each host's name stand its variables, and under no other name anything.
    ensures hosts { IfOk result (λ hosts. (name : List ℕ) → value_in name (Some hosts) ≡ variables_under inventory.now extra.now (facts_in learnt.now) name) }
    ensures variables { (host : ℕ) (name : List ℕ) → value_at name (variables_of inventory.now extra.now (facts_in learnt.now) host)
        ≡ variable_of_host inventory.now extra.now (facts_in learnt.now) host name }
{
    hosts_value(alloc, inventory, extra, learnt)
}

/// The magic variable `hostvars`, which stands for this. The only error is want of memory.
pub fn hosts_magic(alloc: Global, hosts: Val) -> Result<Dict, AllocError>
    ensures { IfOk result (λ known. known ≡ hosts_magic hosts) }
{
    let mut known = Dict::new(alloc);
    known.put(alloc, "hostvars", hosts)?;
    Ok(known)
}

/// The map that a value is.
fn map_of(value: Val) -> Option<Dict>
    ensures { (known : List (List ℕ × Datum)) → value ≡ dict (members_of known) → result ≡ Some known }
{
    match value.into_node() {
        Node::Dict(known) => Some(known),
        _ => None,
    }
}

/// The map that stands under a name of a map, taken out of it: null stands there in its place.
fn taken(alloc: Global, known: &mut Dict, name: &str) -> Result<Option<Dict>, AllocError>
    ensures left { OnOk result (known.new ≡ put name.now null known.old) }
    ensures found { (members : List (List ℕ × Datum)) → value_at name.now known.old ≡ Some (dict (members_of members)) → IfOk result (λ found. found ≡ Some members) }
{
    let copy = String::from_str(alloc, name)?;
    match known.replace(copy, Val::null())? {
        Some(value) => Ok(map_of(value)),
        None => Ok(None),
    }
}

/// The map that the magic variable `hostvars` stands for.
fn hosts_in(alloc: Global, hosts: Dict) -> Result<Option<Dict>, AllocError>
    ensures { (known : List (List ℕ × Datum)) → hosts ≡ hosts_magic (dict (members_of known)) → IfOk result (λ found. found ≡ Some known) }
{
    let mut hosts = hosts;
    taken(alloc, &mut hosts, "hostvars")
}

/// A host that has learnt something: what it knows now, and what can put back what it knew.
#[derive(Drop)]
pub struct Learner<'a> {
    pub host: HostNo,
    pub facts: &'a Facts,
    pub past: &'a FactsUndo,
}

/// What stands under a name of one map goes there in another, if something does.
fn put_stood(
    alloc: Global,
    variables: &mut Dict,
    layer: &Dict,
    name: &str,
) -> Result<(), AllocError>
    ensures { OnOk result (variables.new ≡ put_found name.now None (value_at name.now layer.now) variables.old) }
{
    match layer.get(name) {
        Some(value) => variables.put(alloc, name, value.try_clone(alloc)?),
        None => Ok(()),
    }
}

/// What stands under a name of a layer goes there among a host's variables, unless a layer over it has the name.
fn put_name(
    alloc: Global,
    variables: &mut Dict,
    over: &Dict,
    layer: &Dict,
    name: &str,
) -> Result<(), AllocError>
    ensures { OnOk result (variables.new ≡ put_name over.now layer.now name.now variables.old) }
{
    match over.get(name) {
        Some(_) => Ok(()),
        None => put_stood(alloc, variables, layer, name),
    }
}

/// What was set under each of the names of a log goes there, unless an extra variable has the name.
#[tactic(auto, using(crate::proofs::Between::name_step))]
fn put_names(
    alloc: Global,
    variables: &mut Dict,
    extra: &Dict,
    set: &Dict,
    log: &[(String, Option<Val>)],
) -> Result<(), AllocError>
    ensures { OnOk result (variables.new ≡ put_names extra.now set.now (named log.now) variables.old) }
{
    for entry in log {
        put_name(alloc, variables, extra, set, entry.0.as_str())?;
    }
    Ok(())
}

/// What stands under a name in the layer of gathered facts goes there among a host's variables, unless an extra variable or what was set has the name.
fn put_fact(
    alloc: Global,
    variables: &mut Dict,
    extra: &Dict,
    facts: &Facts,
    name: &str,
) -> Result<(), AllocError>
    ensures { OnOk result (variables.new ≡ put_fact extra.now facts.now.set (gathered_layer facts.now.gathered) name.now variables.old) }
{
    match extra.get(name) {
        Some(_) => Ok(()),
        None => put_name(
            alloc,
            variables,
            facts.set_layer(),
            facts.gathered_layer(),
            name,
        ),
    }
}

/// And what stands there under each of the names of a log.
#[tactic(auto, using(crate::proofs::Between::fact_step))]
fn put_facts(
    alloc: Global,
    variables: &mut Dict,
    extra: &Dict,
    facts: &Facts,
    log: &[(String, Option<Val>)],
) -> Result<(), AllocError>
    ensures { OnOk result (variables.new ≡ put_facts extra.now facts.now.set (gathered_layer facts.now.gathered) (named log.now) variables.old) }
{
    for entry in log {
        put_fact(alloc, variables, extra, facts, entry.0.as_str())?;
    }
    Ok(())
}

/// What a host learnt goes among its variables: what was set first, then each fact, and all of them under one name.
fn put_learnt(
    alloc: Global,
    variables: &mut Dict,
    extra: &Dict,
    learner: &Learner,
) -> Result<(), AllocError>
    ensures { OnOk result (variables.new ≡ follows extra.now learner.now.facts.now learner.now.past.now variables.old) }
{
    let set = learner.facts.set_layer();
    match learner.past {
        FactsUndo::Nothing => Ok(()),
        FactsUndo::Stood(log) => put_names(alloc, variables, extra, set, log.as_slice()),
        FactsUndo::Gathered { stood, facts, .. } => {
            put_names(alloc, variables, extra, set, stood.as_slice())?;
            put_facts(alloc, variables, extra, learner.facts, facts.as_slice())?;
            put_fact(alloc, variables, extra, learner.facts, "ansible_facts")
        }
    }
}

/// The magic variable for a map in which this host's variables follow what it learnt. A map with fewer names than there are hosts tells of two hosts with
/// one name.
fn map_followed(
    alloc: Global,
    known: Dict,
    inventory: &Inventory,
    extra: &Dict,
    learner: &Learner,
) -> Result<Option<Dict>, AllocError>
    requires { learner.now.host.0 < length inventory.now.hosts }
    ensures value { IfOk result (λ kept. IfSome kept (IsRenewedMap inventory.now extra.now learner.now.past.now learner.now.facts.now learner.now.host.0 known)) }
    ensures none { IfOk result (λ kept. kept ≡ None → (before : List FactsOf) → known ≡ hostvars_map inventory.now extra.now before → length known ≢ length inventory.now.hosts) }
{
    let mut known = known;
    if known.len() != inventory.hosts() as usize {
        return Ok(None);
    }
    let name = inventory.name(learner.host);
    match taken(alloc, &mut known, name)? {
        Some(stored) => {
            let mut variables = stored;
            put_learnt(alloc, &mut variables, extra, learner)?;
            known.put(alloc, name, Val::dict(variables))?;
            let hosts = hosts_magic(alloc, Val::dict(known))?;
            Ok(Some(hosts))
        }
        None => Ok(None),
    }
}

/// The magic variable in which this host's variables follow what it learnt, if there is such a host.
fn hosts_followed(
    alloc: Global,
    hosts: Dict,
    inventory: &Inventory,
    extra: &Dict,
    learner: &Learner,
) -> Result<Option<Dict>, AllocError>
    ensures value { IfOk result (λ kept. IfSome kept (IsRenewedBetween inventory.now extra.now learner.now.past.now learner.now.facts.now learner.now.host.0 hosts)) }
    ensures none { IfOk result (λ kept. kept ≡ None → (before : List FactsOf) → hosts ≡ hosts_magic (hostvars inventory.now extra.now before)
        → length (hostvars_map inventory.now extra.now before) ≢ length inventory.now.hosts) }
{
    if learner.host.0 >= inventory.hosts() {
        return Ok(Some(hosts));
    }
    match hosts_in(alloc, hosts)? {
        Some(known) => map_followed(alloc, known, inventory, extra, learner),
        None => Ok(None),
    }
}

/// The magic variable `hostvars` once one host alone has learnt something, as what can put back what it knew tells: where values or facts came under names,
/// these alone are put among that host's variables, and where facts came all of them as `ansible_facts`, each unless what comes over it has its name. So it
/// takes as long as what was learnt and, where facts came, as these, and not as all that the host has. Nothing is answered where two hosts have one name, as
/// in no inventory that was read. The only error is want of memory, and it leaves nothing of the variable.
pub fn renewed_between(
    alloc: Global,
    hosts: Dict,
    inventory: &Inventory,
    extra: &Dict,
    learner: &Learner,
) -> Result<Option<Dict>, AllocError>
    ensures value { IfOk result (λ kept. IfSome kept (IsRenewedBetween inventory.now extra.now learner.now.past.now learner.now.facts.now learner.now.host.0 hosts)) }
    ensures none { IfOk result (λ kept. kept ≡ None → (before : List FactsOf) → hosts ≡ hosts_magic (hostvars inventory.now extra.now before)
        → length (hostvars_map inventory.now extra.now before) ≢ length inventory.now.hosts) }

    // Under each name that was set or gathered the host has the extra variable, or else what was set, or else what was gathered in the end, and under each
    // other one what it had.
    ensures names { VariablesFollow inventory.now extra.now learner.now.past.now learner.now.facts.now learner.now.host.0 }
{
    match learner.past {
        FactsUndo::Nothing => Ok(Some(hosts)),
        _ => hosts_followed(alloc, hosts, inventory, extra, learner),
    }
}
