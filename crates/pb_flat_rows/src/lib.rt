//! Tests alone: cursors against the walk of the whole list of answers, and always parts as deep as a cursor has room for.
#![tactic(auto)]

#[cfg(test)]
mod deep;
#[cfg(test)]
mod lists;
