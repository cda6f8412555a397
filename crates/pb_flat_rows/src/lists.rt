//! Every list of five answers, of five kinds and with or without notified handlers, in a play with blocks in blocks and three Flushes.

use pb_cursors::Cursors;
use pb_flat::{Cursor, FlatPlan};
use pb_tree::{Answer, Kind, Node, PlayTree};
use std::alloc::{AllocError, Global};
use std::test::Fail;

/// How many lists of five answers there are: each answer is one of ten.
const LISTS: usize = 100_000;

const KINDS: [Kind; 5] = [Kind::Good, Kind::Bad, Kind::Halted, Kind::Gone, Kind::Ended];

/// A list of five answers by its number. Each answer notifies both handlers, the second one first, or none.
fn answers_of(alloc: Global, number: usize) -> Result<Vec<Answer>, AllocError> {
    let mut left = number;
    let mut answers = Vec::new(alloc);
    for _ in 0..5 {
        let mut notified = Vec::new(alloc);
        if left % 2 == 1 {
            notified.push(1)?;
            notified.push(0)?;
        }
        answers.push(Answer::of(KINDS[left / 2 % 5], notified))?;
        left /= 10;
    }
    Ok(answers)
}

fn tasks(alloc: Global, count: usize) -> Result<Vec<Node>, AllocError> {
    let mut nodes = Vec::new(alloc);
    for _ in 0..count {
        nodes.push(Node::Task)?;
    }
    Ok(nodes)
}

/// A block with a rescue, whose always part has a block with an always part. A Flush stands in front, one within and one behind.
fn nested(alloc: Global) -> Result<Vec<Node>, AllocError> {
    let inner = Node::Block {
        body: tasks(alloc, 1)?,
        rescue: Vec::new(alloc),
        always: tasks(alloc, 1)?,
    };
    let mut always = Vec::new(alloc);
    always.push(inner)?;
    always.push(Node::Flush)?;
    let outer = Node::Block {
        body: tasks(alloc, 2)?,
        rescue: tasks(alloc, 1)?,
        always,
    };
    let mut nodes = Vec::new(alloc);
    nodes.push(Node::Flush)?;
    nodes.push(outer)?;
    nodes.push(Node::Task)?;
    nodes.push(Node::Flush)?;
    Ok(nodes)
}

/// Whether a cursor that these answers led on one by one says what the walk of all of them says.
fn is_the_walk(
    alloc: Global,
    tree: &PlayTree,
    plan: &FlatPlan,
    answers: &[Answer],
) -> Result<bool, AllocError> {
    let mut cursor = Cursor::first(alloc, plan)?;
    for answer in answers {
        cursor.advance(plan, answer);
    }
    let reach = tree.next(alloc, answers)?;
    let status = tree.status(alloc, answers)?;
    let pending = tree.pending(alloc, answers)?;
    Ok(
        cursor.reach() == reach
            && cursor.status() == status
            && cursor.pending() == pending.as_slice(),
    )
}

/// How many of the lists lead the cursor and the walk to different places, statuses or marks.
fn differences(alloc: Global, force_handlers: bool) -> Result<usize, Fail> {
    let tree = PlayTree::of(alloc, nested(alloc)?, 2, force_handlers)?;
    let plan = FlatPlan::of(alloc, &tree).map_err(|_| AllocError)?;
    let mut different = 0usize;
    for number in 0..LISTS {
        let answers = answers_of(alloc, number)?;
        if !is_the_walk(alloc, &tree, &plan, answers.as_slice())? {
            different = different.saturating_add(1);
        }
    }
    Ok(different)
}

#[test]
fn every_list_as_the_walk(rt: HostRuntime) -> Result<(), Fail> {
    let alloc = rt.alloc();
    assert!(rt; differences(alloc, false)? == 0);
    assert!(rt; differences(alloc, true)? == 0);
    Ok(())
}

/// Two hosts with answers of their own, and a copy of them that goes on by itself.
#[test]
fn hosts_by_themselves(rt: HostRuntime) -> Result<(), Fail> {
    let alloc = rt.alloc();
    let tree = PlayTree::of(alloc, nested(alloc)?, 2, false)?;
    let plan = FlatPlan::of(alloc, &tree).map_err(|_| AllocError)?;
    let mut cursors = Cursors::open(alloc, plan.try_clone(alloc)?, 2)?;
    cursors.answer(1, &Answer::plain(alloc, Kind::Good));
    let mut copy = cursors.try_clone(alloc)?;
    copy.answer(1, &Answer::plain(alloc, Kind::Gone));
    assert!(rt; cursors.reach(0) == pb_tree::Reach::At(2));
    assert!(rt; cursors.reach(1) == pb_tree::Reach::At(3));
    assert!(rt; cursors.status(1) == pb_tree::Status::Active);
    assert!(rt; copy.reach(0) == pb_tree::Reach::At(2));
    assert!(rt; copy.status(1) == pb_tree::Status::Gone);
    Ok(())
}
