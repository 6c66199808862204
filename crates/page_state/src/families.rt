//! The metrics by their names.

/// What is told of a metric.
#[derive(Clone, Copy)]
pub(crate) struct Metric {
    pub(crate) name: &'static [u8],
    pub(crate) kind: &'static [u8],
    pub(crate) help: &'static [u8],
    /// By what its samples are told apart; empty where it has one alone.
    pub(crate) label: &'static [u8],
}

pub(crate) const DATAGRAMS: Metric = Metric {
    name: b"rgw_datagrams_total",
    kind: b"counter",
    help: b"Datagrams that came and went.",
    label: b"direction",
};

pub(crate) const COMMANDS: Metric = Metric {
    name: b"rgw_commands_total",
    kind: b"counter",
    help: b"Commands that came, by verb.",
    label: b"verb",
};

pub(crate) const ANSWERS: Metric = Metric {
    name: b"rgw_answers_total",
    kind: b"counter",
    help: b"Responses that were sent, by code.",
    label: b"code",
};

pub(crate) const NOTIFICATIONS: Metric = Metric {
    name: b"rgw_notifications_total",
    kind: b"counter",
    help: b"Notifications that were sent.",
    label: b"",
};

pub(crate) const ANNOUNCEMENTS: Metric = Metric {
    name: b"rgw_announcements_total",
    kind: b"counter",
    help: b"Announcements that were sent.",
    label: b"",
};

pub(crate) const GIVEN_UP: Metric = Metric {
    name: b"rgw_given_up_total",
    kind: b"counter",
    help: b"Commands of its own that nobody answered, by whose they are.",
    label: b"owner",
};

pub(crate) const SENDS: Metric = Metric {
    name: b"rgw_sends_total",
    kind: b"counter",
    help: b"Sends of commands of its own, by which of its agent's addresses they go to.",
    label: b"place",
};

pub(crate) const REPEATS: Metric = Metric {
    name: b"rgw_repeats_total",
    kind: b"counter",
    help: b"Messages that were sent before, by what they are.",
    label: b"of",
};

pub(crate) const RESPONSES: Metric = Metric {
    name: b"rgw_responses_total",
    kind: b"counter",
    help: b"Responses that came.",
    label: b"",
};

pub(crate) const UNREADABLE: Metric = Metric {
    name: b"rgw_unreadable_total",
    kind: b"counter",
    help: b"Texts that came and are no message.",
    label: b"",
};

pub(crate) const REFUSED: Metric = Metric {
    name: b"rgw_refused_total",
    kind: b"counter",
    help: b"Inputs that the gateway refused.",
    label: b"",
};

pub(crate) const STRANGERS: Metric = Metric {
    name: b"rgw_strangers_total",
    kind: b"counter",
    help: b"Datagrams of who may not speak.",
    label: b"",
};

pub(crate) const LOST_COMMANDS: Metric = Metric {
    name: b"rgw_lost_commands_total",
    kind: b"counter",
    help: b"Commands that found no room among those that are remembered.",
    label: b"",
};

pub(crate) const FAULTS: Metric = Metric {
    name: b"rgw_faults_total",
    kind: b"counter",
    help: b"How often a socket failed.",
    label: b"of",
};

pub(crate) const DROPPED_LINES: Metric = Metric {
    name: b"rgw_dropped_lines_total",
    kind: b"counter",
    help: b"Lines of the log that found no room.",
    label: b"",
};

pub(crate) const WRITE_FAULTS: Metric = Metric {
    name: b"rgw_write_faults_total",
    kind: b"counter",
    help: b"How often a record couldn't be written.",
    label: b"file",
};

pub(crate) const LOST_EVENTS: Metric = Metric {
    name: b"rgw_lost_events_total",
    kind: b"counter",
    help: b"Events that found no room on their line.",
    label: b"",
};

pub(crate) const SERVING: Metric = Metric {
    name: b"rgw_serving",
    kind: b"gauge",
    help: b"Whether the gateway serves: its announcement was answered.",
    label: b"",
};

pub(crate) const LINES: Metric = Metric {
    name: b"rgw_lines",
    kind: b"gauge",
    help: b"Lines of the gateway.",
    label: b"",
};

pub(crate) const LINES_OFF_HOOK: Metric = Metric {
    name: b"rgw_lines_off_hook",
    kind: b"gauge",
    help: b"Lines that are off hook.",
    label: b"",
};

pub(crate) const CONNECTIONS: Metric = Metric {
    name: b"rgw_connections",
    kind: b"gauge",
    help: b"Connections of all lines.",
    label: b"",
};

pub(crate) const TRANSACTIONS: Metric = Metric {
    name: b"rgw_transactions",
    kind: b"gauge",
    help: b"Transactions that are held.",
    label: b"",
};
