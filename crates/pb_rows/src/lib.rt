//! Tests alone, of what no case shows: writers that fail, or take little or nothing, and the trails of such runs; files of outcomes and trails that
//! are cut at each byte; the largest numbers in trails, bundles, loops and files of outcomes that are taken with those that are one larger, long
//! chains of roles, the events of runs in their order, by each strategy and in batches, failures that are fatal for all by each picker,
//! reports that are refused and handed back, trails that are replayed and compared, recaps, commands, and folders of roles as the system has them.
#![tactic(auto)]

#[cfg(test)]
mod audits;
#[cfg(test)]
mod bundles;
#[cfg(test)]
mod chain;
#[cfg(test)]
mod commands;
#[cfg(test)]
mod cut;
#[cfg(test)]
mod engines;
#[cfg(test)]
mod events_text;
#[cfg(test)]
mod kept;
#[cfg(test)]
mod kept_trails;
#[cfg(test)]
mod loops;
#[cfg(test)]
mod made;
#[cfg(test)]
mod outcomes;
#[cfg(test)]
mod pickers;
#[cfg(test)]
mod replays;
#[cfg(test)]
mod reports;
#[cfg(test)]
mod roles;
#[cfg(test)]
mod same_ends;
#[cfg(test)]
mod seen;
#[cfg(test)]
mod small_writers;
#[cfg(test)]
mod strategies;
#[cfg(test)]
mod trails;
#[cfg(test)]
mod vanishing;
#[cfg(test)]
mod writers;
