//! The rows that are played.

/// How a row is played.
#[derive(Clone, Copy)]
pub enum Way {
    /// In this thread.
    Plain,
    /// By so many workers, each in a thread of its own.
    Pool(u32),
    /// By calls on an engine, each of which is made once more where memory was refused.
    ByHand,
}

/// What one run is made of, as texts, and how it is played.
#[derive(Clone, Copy)]
pub struct Row {
    pub way: Way,
    pub inventory: &'static str,
    pub playbook: &'static str,
    pub outcomes: &'static str,
    /// The tasks of the role `site`.
    pub role: Option<&'static str>,
    pub limit: Option<&'static str>,
    pub extra: Option<&'static str>,
}

const ONE_HOST: &str = "{\"all\":{\"hosts\":[\"a\"]}}";

const THREE_HOSTS: &str = "{\"all\":{\"hosts\":[\"a\",\"b\",\"c\"]}}";

const FIVE_HOSTS: &str = "{\"all\":{\"hosts\":[\"a\",\"b\",\"c\",\"d\",\"e\"]}}";

const GROUPS: &str =
    "{\"web\":{\"hosts\":[\"a\",\"b\"],\"vars\":{\"port\":80,\"at\":\"{{ port }}\"}},\"db\":{\"hosts\":[\"c\",\"b\"],\"vars\":{\"port\":5432}},\"_meta\":{\"hostvars\":{\"a\":{\"port\":8080}}}}";

const ALL_WELL: &str = "{\"rows\":[]}";

/// Two handlers, one of which listens, and two commands that notify them.
const HANDLERS: &str =
    "[{\"hosts\":\"all\",\"gather_facts\":false,\"handlers\":[{\"name\":\"h1\",\"debug\":{\"msg\":\"one\"},\"listen\":\"web\"},{\"name\":\"h2\",\"debug\":{\"msg\":\"two\"}}],\"tasks\":[{\"command\":\"first one\",\"notify\":[\"h2\",\"h1\"]},{\"command\":\"second one\",\"notify\":[\"h2\",\"web\"]}]}]";

/// A loop of which one item is skipped and one fails, so that it notifies no handler, and a task that reads what it left.
const LOOP: &str =
    "[{\"hosts\":\"all\",\"gather_facts\":false,\"handlers\":[{\"name\":\"h\",\"debug\":{}}],\"vars\":{\"words\":[\"x\",\"y\",\"z z\"]},\"tasks\":[{\"command\":\"run {{ item }}\",\"loop\":\"{{ words }}\",\"when\":\"item != 'y'\",\"ignore_errors\":true,\"register\":\"r\",\"notify\":\"h\"},{\"debug\":{\"msg\":\"{{ r.results }} of {{ inventory_hostname }}\"}}]}]";

const LAST_ITEM_FAILS: &str =
    "{\"rows\":[{\"item\":2,\"outcome\":{\"rc\":1,\"out\":\"half\\nof it\",\"err\":\"broken\"}}]}";

/// Batches of two hosts, of which the second fails as a whole.
const BATCHES: &str =
    "[{\"hosts\":\"all\",\"gather_facts\":false,\"serial\":2,\"max_fail_percentage\":30,\"tasks\":[{\"command\":\"run it\"},{\"debug\":{\"var\":\"ansible_play_hosts_all\"}}]},{\"hosts\":\"a:c:e\",\"gather_facts\":false,\"tasks\":[{\"debug\":{\"msg\":\"again\"}}]}]";

const HOST_C_FAILS: &str =
    "{\"rows\":[{\"host\":\"c\",\"outcome\":{\"rc\":3,\"out\":\"\",\"err\":\"no\"}}]}";

/// A fact that one host sets for all, and a play in which hosts needn't wait for one another.
const ONCE: &str =
    "[{\"hosts\":\"all\",\"gather_facts\":false,\"tasks\":[{\"set_fact\":{\"x\":\"of {{ inventory_hostname }}\"},\"run_once\":true,\"register\":\"r\"},{\"debug\":{\"var\":\"x\"}}]},{\"hosts\":\"all\",\"gather_facts\":false,\"strategy\":\"free\",\"tasks\":[{\"command\":\"run {{ x }}\",\"when\":\"inventory_hostname != 'b'\"},{\"set_fact\":{\"y\":\"{{ inventory_hostname }}\"}},{\"debug\":{\"msg\":\"{{ x }} and {{ y }}\"}}]}]";

/// A task that is tried until it goes well.
const ATTEMPTS: &str =
    "[{\"hosts\":\"all\",\"gather_facts\":false,\"tasks\":[{\"shell\":\"run for {{ inventory_hostname }}\",\"register\":\"r\",\"until\":\"r.rc == 0 and 'done' in r.stdout\",\"retries\":3,\"delay\":0,\"changed_when\":\"r.attempts > 1\"},{\"debug\":{\"msg\":\"{{ r.attempts }} of {{ r.stdout_lines }}\"}}]}]";

const SECOND_IS_DONE: &str =
    "{\"rows\":[{\"attempt\":1,\"outcome\":{\"rc\":1,\"out\":\"\",\"err\":\"wait\"}},{\"outcome\":{\"rc\":0,\"out\":\"all\\ndone\",\"err\":\"\"}}]}";

/// Facts, a role, a limit, extra variables, layers that hide one another, a block with a rescue, a delegate and a host that is out of reach.
const ROLE: &str =
    "[{\"hosts\":\"web:db\",\"gather_facts\":true,\"roles\":[{\"role\":\"site\",\"say\":\"it is {{ greeting }}\"}],\"tasks\":[{\"block\":[{\"command\":\"break it\",\"delegate_to\":\"c\"}],\"rescue\":[{\"debug\":{\"msg\":\"{{ port }} {{ hostvars['a'].port }}\"}}],\"always\":[{\"assert\":{\"that\":[\"port > 79\",\"'a' in groups['web']\"]}}]}]}]";

const SITE: &str =
    "[{\"debug\":{\"msg\":\"{{ say }} {{ system }}\"},\"loop\":[1,true,null]},{\"meta\":\"flush_handlers\"}]";

const FACTS_AND_FAULTS: &str =
    "{\"rows\":[{\"host\":\"a\",\"place\":\"0\",\"outcome\":{\"facts\":{\"system\":\"Linux\"}}},{\"host\":\"b\",\"place\":\"0\",\"outcome\":{\"facts\":{\"system\":\"BSD\"}}},{\"host\":\"b\",\"outcome\":{\"unreachable\":\"no answer\"}},{\"outcome\":{\"rc\":1,\"out\":\"\",\"err\":\"broken\"}}]}";

/// A block that fails and is rescued.
const BLOCK: &str =
    "[{\"hosts\":\"all\",\"gather_facts\":false,\"tasks\":[{\"block\":[{\"debug\":{}},{\"command\":\"break it\"}],\"rescue\":[{\"debug\":{}}],\"always\":[{\"debug\":{}}]},{\"debug\":{}}]}]";

const ALL_FAIL: &str = "{\"rows\":[{\"outcome\":{\"rc\":1,\"out\":\"\",\"err\":\"broken\"}}]}";

/// A command that runs on one host of each batch, for all of them.
const ONCE_A_BATCH: &str =
    "[{\"hosts\":\"all\",\"gather_facts\":false,\"serial\":2,\"tasks\":[{\"command\":\"run it\",\"run_once\":true,\"register\":\"r\"},{\"debug\":{\"var\":\"r.stdout\"}}]}]";

const A_AND_C_TELL: &str =
    "{\"rows\":[{\"host\":\"a\",\"outcome\":{\"rc\":0,\"out\":\"A\",\"err\":\"\"}},{\"host\":\"c\",\"outcome\":{\"rc\":0,\"out\":\"C\",\"err\":\"\"}}]}";

/// A failure that is fatal for all hosts.
const FATAL: &str =
    "[{\"hosts\":\"all\",\"gather_facts\":false,\"any_errors_fatal\":true,\"tasks\":[{\"command\":\"run it\"},{\"debug\":{}}]}]";

const HOST_A_FAILS: &str =
    "{\"rows\":[{\"host\":\"a\",\"outcome\":{\"rc\":1,\"out\":\"\",\"err\":\"\"}}]}";

/// The row of a run with nothing but these.
fn plain(inventory: &'static str, playbook: &'static str, outcomes: &'static str) -> Row {
    Row {
        way: Way::Plain,
        inventory,
        playbook,
        outcomes,
        role: None,
        limit: None,
        extra: None,
    }
}

impl Row {
    /// As many hosts may run at once.
    pub fn forks(&self) -> u32 {
        match self.way {
            Way::Pool(workers) => workers,
            _ => 2,
        }
    }
}

/// The texts of a number, from 1 on, played in this thread.
fn texts_of(number: u32) -> Option<Row> {
    match number {
        1 => Some(plain(ONE_HOST, HANDLERS, ALL_WELL)),
        2 => Some(plain(ONE_HOST, LOOP, LAST_ITEM_FAILS)),
        3 => Some(plain(FIVE_HOSTS, BATCHES, HOST_C_FAILS)),
        4 => Some(plain(THREE_HOSTS, ONCE, ALL_WELL)),
        5 => Some(plain(THREE_HOSTS, ATTEMPTS, SECOND_IS_DONE)),
        6 => Some(Row {
            way: Way::Plain,
            inventory: GROUPS,
            playbook: ROLE,
            outcomes: FACTS_AND_FAULTS,
            role: Some(SITE),
            limit: Some("web:!c"),
            extra: Some("{\"greeting\":\"hello\"}"),
        }),
        7 => Some(plain(ONE_HOST, BLOCK, ALL_FAIL)),
        8 => Some(plain(THREE_HOSTS, ONCE_A_BATCH, A_AND_C_TELL)),
        9 => Some(plain(THREE_HOSTS, FATAL, HOST_A_FAILS)),
        _ => None,
    }
}

/// How many texts there are.
const TEXTS: u32 = 9;

/// How many runs by workers there are.
const POOLS: u32 = 2;

/// How many rows there are: each text, the first one by workers, and each by hand.
pub const ROWS: u32 = TEXTS + POOLS + TEXTS;

/// The texts of a number, played in this way.
fn played(number: u32, way: Way) -> Option<Row> {
    let Some(mut row) = texts_of(number) else {
        return None;
    };
    row.way = way;
    Some(row)
}

/// The row of a number, from 1 on.
pub fn row_of(number: u32) -> Option<Row> {
    if number <= TEXTS {
        return played(number, Way::Plain);
    }
    let behind = number - TEXTS;
    if behind <= POOLS {
        return played(1, Way::Pool(behind));
    }
    played(behind - POOLS, Way::ByHand)
}
