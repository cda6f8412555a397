//! Tests alone: statuses and counts of hosts at many widths, against plain lists.
#![tactic(auto)]

#[cfg(test)]
mod columns;
#[cfg(test)]
mod statuses;
#[cfg(test)]
mod widths;
