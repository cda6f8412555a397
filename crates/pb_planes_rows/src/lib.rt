//! Tests alone: sets of hosts of many widths, against plain lists.
#![tactic(auto)]

#[cfg(test)]
mod widths;
