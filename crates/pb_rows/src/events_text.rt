//! Events in words.

use pb_state::Event;
use std::alloc::{AllocError, Global};

/// Writes an event's name, with the numbers of its host, item and job.
fn put(text: &mut String, event: &Event) -> Result<(), AllocError> {
    match event {
        Event::Open => text.push_str("open, "),
        Event::Start(host) => {
            let host = host.0;
            write!(text, "start {host}, ")
        }
        Event::Send {
            host,
            item,
            attempt: _,
            ticket,
        } => {
            let host = host.0;
            let ticket = ticket.0;
            write!(text, "send {host} {item} as {ticket}, ")
        }
        Event::Report(report) => {
            let host = report.host.0;
            let item = report.item;
            let ticket = report.ticket.0;
            write!(text, "report {host} {item} of {ticket}, ")
        }
        Event::Turn => text.push_str("turn, "),
        Event::Close => text.push_str("close, "),
        Event::Stop => text.push_str("stop, "),
        Event::Forks(forks) => write!(text, "forks {forks}, "),
    }
}

/// The events of a trail, in their order.
pub fn events_text(alloc: Global, trail: &[Event]) -> Result<String, AllocError> {
    let mut text = String::new(alloc);
    for event in trail {
        put(&mut text, event)?;
    }
    Ok(text)
}
