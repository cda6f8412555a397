//! The longest and deepest expressions that are taken, and those that are one longer or deeper.

use crate::repeated::repeated;
use pb_expr_syntax::fault::ExprFault;
use pb_expr_syntax::tree::Expr;
use std::alloc::{AllocError, Global};
use std::test::Fail;

/// A number with a text before it and one behind it, each so many times.
fn framed(alloc: Global, front: &str, back: &str, times: u32) -> Result<String, AllocError> {
    let mut all = repeated(alloc, front, times)?;
    all.push_str("1")?;
    for _ in 0..times {
        all.push_str(back)?;
    }
    Ok(all)
}

/// Reads an expression; the fault, if it has one.
fn fault_of(
    alloc: Global,
    front: &str,
    back: &str,
    times: u32,
) -> Result<Option<ExprFault>, AllocError> {
    let text = framed(alloc, front, back, times)?;
    match Expr::parse(alloc, text.as_str()) {
        Ok(_) => Ok(None),
        Err(fault) => Ok(Some(fault)),
    }
}

/// Whether so many are taken, and so many more are too deep.
fn is_bounded(
    alloc: Global,
    front: &str,
    back: &str,
    most: u32,
    above: u32,
) -> Result<bool, AllocError> {
    let taken = fault_of(alloc, front, back, most)?;
    let refused = fault_of(alloc, front, back, above)?;
    Ok(taken.is_none() && refused == Some(ExprFault::TooDeep))
}

#[test]
fn lengths(rt: HostRuntime) -> Result<(), Fail> {
    assert!(rt; is_bounded(rt.alloc(), " ", "", 4_095, 4_096)?);
    assert!(rt; is_bounded(rt.alloc(), "(", ")", 2_047, 2_048)?);
    Ok(())
}

#[test]
fn depths(rt: HostRuntime) -> Result<(), Fail> {
    assert!(rt; is_bounded(rt.alloc(), "not ", "", 63, 64)?);
    assert!(rt; is_bounded(rt.alloc(), "-", "", 63, 64)?);
    assert!(rt; is_bounded(rt.alloc(), "-", "", 63, 4_000)?);
    assert!(rt; is_bounded(rt.alloc(), "[", "]", 63, 64)?);
    assert!(rt; is_bounded(rt.alloc(), "", " | int", 63, 64)?);
    Ok(())
}
