//! How much memory values take.
ghost use Rattle.std.specs.Prelude.{◌≡◌, ◌<◌, ◌+◌, IfSome, IfNone};
ghost use Rattle.pb_value.specs.Datum.{items_of, members_of};
ghost use Rattle.pb_variables.specs.Weight.{weight, items_weight, members_weight};

use pb_value::val::{Dict, Node, Val, ValList};

/// How much is left of a room behind a value, where it has room there.
#[cycle(behind)]
pub fn behind_value(value: &Val, room: usize) -> Option<usize>
    ensures some { IfSome result (λ left. left + weight value.now ≡ room) }
    ensures none { IfNone result (room < weight value.now) }
{
    match &value.node {
        Node::Null | Node::Bool(_) | Node::Int(_) => room.checked_sub(64),
        Node::Text(text) => {
            let left = room.checked_sub(64)?;
            left.checked_sub(text.len())
        }
        Node::List(list) => {
            let left = room.checked_sub(64)?;
            behind_list(list, left)
        }
        Node::Dict(dict) => {
            let left = room.checked_sub(1024)?;
            behind_dict(dict, left)
        }
    }
}

#[cycle(behind)]
fn behind_list(list: &ValList, room: usize) -> Option<usize>
    ensures some { IfSome result (λ left. left + items_weight (items_of list.now) ≡ room) }
    ensures none { IfNone result (room < items_weight (items_of list.now)) }
{
    let mut left = room;
    for value in &list.items {
        left = behind_value(value, left)?;
    }
    Some(left)
}

/// How much is left of a room behind the values of a dict, where they have room there.
#[cycle(behind)]
pub fn behind_dict(dict: &Dict, room: usize) -> Option<usize>
    ensures some { IfSome result (λ left. left + members_weight (members_of dict.now) ≡ room) }
    ensures none { IfNone result (room < members_weight (members_of dict.now)) }
{
    let mut left = room;
    for (name, value) in dict.iter() {
        let behind_entry = left.checked_sub(64)?;
        let behind_name = behind_entry.checked_sub(name.len())?;
        left = behind_value(value, behind_name)?;
    }
    Some(left)
}
