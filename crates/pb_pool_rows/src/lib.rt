//! Tests alone: runs whose jobs are run by workers in threads of their own.
#![tactic(auto)]

#[cfg(test)]
mod failing;
#[cfg(test)]
mod gates;
#[cfg(test)]
mod local;
#[cfg(test)]
mod made;
#[cfg(test)]
mod tests;
