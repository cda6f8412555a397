//! Tests alone: the limits of expressions by the fault that each gives, and texts too long for a case, on public calls.
//! What a run shows is said by the cases in tests/.
#![tactic(auto)]

#[cfg(test)]
mod parsed;
#[cfg(test)]
mod repeated;
#[cfg(test)]
mod texts;
