//! Always parts that stand in one another.

use pb_flat::{Cursor, FlatFault, FlatPlan};
use pb_tree::{Answer, Ending, Kind, Node, PlayTree, Reach};
use std::alloc::{AllocError, Global};
use std::test::Fail;

/// A task, in so many always parts that stand in one another; in front of each stands a task.
fn always_in_always(alloc: Global, depth: usize) -> Result<PlayTree, AllocError> {
    let mut nodes = Vec::new(alloc);
    nodes.push(Node::Task)?;
    for _ in 0..depth {
        let mut body = Vec::new(alloc);
        body.push(Node::Task)?;
        let block = Node::Block {
            body,
            rescue: Vec::new(alloc),
            always: nodes,
        };
        nodes = Vec::new(alloc);
        nodes.push(block)?;
    }
    PlayTree::of(alloc, nodes, 0, false)
}

#[test]
fn as_deep_as_there_is_room(rt: HostRuntime) -> Result<(), Fail> {
    let alloc = rt.alloc();
    let tree = always_in_always(alloc, 32)?;
    let plan = FlatPlan::of(alloc, &tree).map_err(|_| AllocError)?;
    let mut cursor = Cursor::first(alloc, &plan)?;
    cursor.advance(&plan, &Answer::plain(alloc, Kind::Bad));
    for place in 1..33 {
        assert!(rt; cursor.reach() == Reach::At(place));
        cursor.advance(&plan, &Answer::plain(alloc, Kind::Good));
    }
    assert!(rt; cursor.reach() == Reach::Done(Ending::Bad));
    Ok(())
}

#[test]
fn one_deeper(rt: HostRuntime) -> Result<(), Fail> {
    let alloc = rt.alloc();
    let tree = always_in_always(alloc, 33)?;
    let is_too_deep = matches!(FlatPlan::of(alloc, &tree), Err(FlatFault::TooDeep));
    assert!(rt; is_too_deep);
    Ok(())
}
