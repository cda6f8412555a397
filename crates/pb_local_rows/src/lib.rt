//! Tests alone, of what no contract can say: what comes of programs that `LocalRunner` starts.
#![tactic(auto)]

#[cfg(test)]
mod recorder;
#[cfg(test)]
mod starts;
#[cfg(test)]
mod tests;
