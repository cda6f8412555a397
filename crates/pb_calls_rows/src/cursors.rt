//! A cursor that a whole list of answers led on.

use pb_flat::{Cursor, FlatPlan};
use pb_tree::{Answer, Kind, Node, PlayTree, Reach, Status};
use std::alloc::{AllocError, Global};
use std::test::Fail;

/// A block of one task with a rescue of one, and a task behind it.
fn nodes(alloc: Global) -> Result<Vec<Node>, AllocError> {
    let mut body = Vec::new(alloc);
    body.push(Node::Task)?;
    let mut rescue = Vec::new(alloc);
    rescue.push(Node::Task)?;
    let mut nodes = Vec::new(alloc);
    nodes.push(Node::Block {
        body,
        rescue,
        always: Vec::new(alloc),
    })?;
    nodes.push(Node::Task)?;
    Ok(nodes)
}

/// The task in the block failed, and that in its rescue went well, so that the host stands behind the block.
#[test]
fn behind_a_rescue(rt: HostRuntime) -> Result<(), Fail> {
    let alloc = rt.alloc();
    let tree = PlayTree::of(alloc, nodes(alloc)?, 0, false)?;
    let plan = FlatPlan::of(alloc, &tree).map_err(|_| AllocError)?;
    let mut answers = Vec::new(alloc);
    answers.push(Answer::plain(alloc, Kind::Bad))?;
    answers.push(Answer::plain(alloc, Kind::Good))?;
    let cursor = Cursor::after(alloc, &plan, answers.as_slice())?;
    assert!(rt; cursor.reach() == Reach::At(2));
    assert!(rt; cursor.status() == Status::Active);
    Ok(())
}
