//! What the seats know. Contracts alone see it: no value of these types is made.

use pb_outcome::job::{Job, Report};
use std::collections::LinkedList;

/// What the main seat did, with the fork.
pub enum Entry {
    Offered(u32, Job),
    Collected(u32, Report),
}

/// What a fork's seat knows.
pub struct ForkView {
    /// The jobs that it took, in order.
    pub takes: LinkedList<Job>,
    /// The reports that it answered, in order.
    pub answers: LinkedList<Report>,
    /// The last word that it saw.
    pub seen: u64,
    /// How often it looked.
    pub looks: u64,
    /// Whether it has the slot out, which it has within calls only.
    pub holds: bool,
}

/// A fork's view stands in the main view before its seat is split off and after it is joined.
pub enum Lodged {
    Here(ForkView),
    Away,
}

/// What the main seat knows.
pub struct MainView {
    /// Its offers and collects, in one order.
    pub log: LinkedList<Entry>,
    /// The last word that it saw of each fork.
    pub seen: LinkedList<u64>,
    /// How often it looked.
    pub looks: u64,
    /// 0, or within calls 1 more than the fork whose slot it has out.
    pub hand: u64,
    /// Each fork's view, where its seat isn't out.
    pub parts: LinkedList<Lodged>,
    /// How many seats were split off.
    pub next: u64,
}

/// What a seat knows. A join leaves `Spent`.
pub enum View {
    Main(MainView),
    Fork(u32, ForkView),
    Spent,
}
