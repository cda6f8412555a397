//! Tests alone: public calls of the lower crates that no run makes, each once where memory is ample. A call that gave up would meet its
//! contract, which speaks of its value only where there is one.
#![tactic(auto)]

#[cfg(test)]
mod calls;
#[cfg(test)]
mod cursors;
#[cfg(test)]
mod facts;
#[cfg(test)]
mod groups;
#[cfg(test)]
mod handlers;
#[cfg(test)]
mod hostvars;
#[cfg(test)]
mod json;
#[cfg(test)]
mod results;
#[cfg(test)]
mod templates;
#[cfg(test)]
mod values;
