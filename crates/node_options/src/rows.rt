//! The options, one row each.

/// An option: `--` and its word on the command line, and the word alone as a key of the file.
pub(crate) struct Row {
    pub(crate) word: &'static str,
    pub(crate) takes: Takes,
    pub(crate) help: &'static str,
}

/// What an option takes.
#[derive(Clone, Copy)]
pub(crate) enum Takes {
    /// One value, which the help calls by this name.
    One(&'static str),
    /// One value each time that the option is given, which the help calls by this name.
    Several(&'static str),
    /// No value on the command line, and `true` or `false` in the file.
    Nothing,
}

/// The option that names the file, so that it is no key of the file.
pub(crate) const CONFIG: Row = Row {
    word: "config",
    takes: Takes::One("FILE"),
    help: "Takes options from this TOML file, by the words below without --; words given here win over it",
};

/// The options that are keys of the file as well.
pub(crate) static ROWS: [Row; 25] = [
    Row {
        word: "cluster",
        takes: Takes::One("LABEL"),
        help: "The cluster's label, a name: nodes of another label are refused [default: plumtree]",
    },
    Row {
        word: "listen",
        takes: Takes::One("ADDRESS:PORT"),
        help: "Where the node takes connections [default: 127.0.0.1:7101]",
    },
    Row {
        word: "advertise",
        takes: Takes::One("ADDRESS:PORT"),
        help: "Its address for others; needed where --listen is 0.0.0.0 or :: [default: what --listen says]",
    },
    Row {
        word: "contact",
        takes: Takes::Several("NAME"),
        help: "A node by which it joins the cluster; again for more, which are tried in turn",
    },
    Row {
        word: "peer",
        takes: Takes::Several("NAME=HOST:PORT"),
        help: "Where another node takes connections; again for more",
    },
    Row {
        word: "domain",
        takes: Takes::One("DOMAIN"),
        help: "A node that no --peer names is the host NAME.DOMAIN",
    },
    Row {
        word: "port",
        takes: Takes::One("PORT"),
        help: "The port of those hosts [default: 7101]",
    },
    Row {
        word: "state",
        takes: Takes::One("FOLDER"),
        help: "Keeps the node's last incarnation in this folder",
    },
    Row {
        word: "record",
        takes: Takes::One("FOLDER"),
        help: "Keeps what the node takes in this folder, for plumtree merge",
    },
    Row {
        word: "sync",
        takes: Takes::One("WHEN"),
        help: "When the record is written to the disk: always, second or never [default: second]",
    },
    Row {
        word: "on-record-failure",
        takes: Takes::One("WHAT"),
        help: "What it does if it cannot be written: stop or go-on [default: stop]",
    },
    Row {
        word: "status",
        takes: Takes::One("ADDRESS:PORT"),
        help: "Answers GET /, /status, /metrics and /tree there, and POST /stop",
    },
    Row {
        word: "active",
        takes: Takes::One("NUMBER"),
        help: "How many neighbors it has at most, 1 to 16 [default: 5]",
    },
    Row {
        word: "passive",
        takes: Takes::One("NUMBER"),
        help: "How many other names it knows at most, 1 to 64 [default: 30]",
    },
    Row {
        word: "arwl",
        takes: Takes::One("NUMBER"),
        help: "The length of random walks, at most 32 [default: 6]",
    },
    Row {
        word: "prwl",
        takes: Takes::One("NUMBER"),
        help: "The step at which a walk leaves a name behind, at most --arwl [default: 3]",
    },
    Row {
        word: "ka",
        takes: Takes::One("NUMBER"),
        help: "How many neighbors a shuffle names; with --kp at most 7 [default: 3]",
    },
    Row {
        word: "kp",
        takes: Takes::One("NUMBER"),
        help: "How many other names a shuffle has; with --ka at most 7 [default: 4]",
    },
    Row {
        word: "threshold",
        takes: Takes::One("NUMBER"),
        help: "How many links shorter a path is that replaces another, or 0 for never [default: 0]",
    },
    Row {
        word: "keep",
        takes: Takes::One("NUMBER"),
        help: "How many payloads it keeps, or 0 for all [default: 10000]",
    },
    Row {
        word: "tick",
        takes: Takes::One("MILLISECONDS"),
        help: "The time between ticks, 1 to 60000 [default: 100]",
    },
    Row {
        word: "grace",
        takes: Takes::One("SECONDS"),
        help: "How long it takes leave at its end, at most 3600 [default: 5]",
    },
    Row {
        word: "format",
        takes: Takes::One("FORMAT"),
        help: "How deliveries are printed: text, hex or json [default: text]",
    },
    Row {
        word: "log",
        takes: Takes::One("LEVEL"),
        help: "How much is told on standard error: error, info or debug [default: info]",
    },
    Row {
        word: "until-end",
        takes: Takes::Nothing,
        help: "Ends once standard input has ended and all is sent",
    },
];

/// Whether an option is a key of the file.
pub(crate) fn is_key(word: &str) -> bool {
    ROWS.iter().any(|row| row.word == word)
}
