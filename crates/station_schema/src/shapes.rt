//! The tables and indexes of a station, as SQLite lists them.
use sqlite_schema::schema::Kind;

/// The key of a table.
pub(crate) enum Key {
    /// An INTEGER PRIMARY KEY with this name, in front of the other columns.
    Number(&'static str),
    /// A PRIMARY KEY of the columns at these places, from 1.
    Columns(&'static [usize]),
}

/// The shape of a STRICT table.
pub(crate) struct TableShape {
    pub(crate) name: &'static str,
    /// The number of the tree with its rows.
    pub(crate) tree: u32,
    pub(crate) key: Key,
    /// The columns, each NOT NULL, without an INTEGER PRIMARY KEY.
    pub(crate) columns: &'static [(&'static str, Kind)],
}

/// The shape of an index.
pub(crate) struct IndexShape {
    pub(crate) name: &'static str,
    /// The number of the tree with its entries.
    pub(crate) tree: u32,
    /// The number of the tree of its table.
    pub(crate) table: u32,
    /// The places of its columns, from 1.
    pub(crate) places: &'static [usize],
    pub(crate) is_unique: bool,
}

/// The tables, in the order in which a new station makes them.
pub(crate) const TABLES: [TableShape; 14] = [
    // The airport, the version of the tables, and the last confirmed message.
    TableShape {
        name: "station",
        tree: 0,
        key: Key::Number("id"),
        columns: &[
            ("airport", Kind::Text),
            ("version", Kind::Integer),
            ("confirmed", Kind::Integer),
        ],
    },
    // The waybills of version 1; empty in version 2.
    TableShape {
        name: "waybill",
        tree: 1,
        key: Key::Number("awb"),
        columns: &[
            ("origin", Kind::Text),
            ("destination", Kind::Text),
            ("pieces", Kind::Integer),
            ("tenths", Kind::Integer),
            ("goods", Kind::Text),
            ("notified", Kind::Integer),
        ],
    },
    // The stock, as runs of numbers with their holders.
    TableShape {
        name: "stock",
        tree: 2,
        key: Key::Columns(&[1, 2]),
        columns: &[
            ("prefix", Kind::Integer),
            ("low", Kind::Integer),
            ("high", Kind::Integer),
            ("holder", Kind::Integer),
            ("agent", Kind::Text),
        ],
    },
    // The noted outbound flights.
    TableShape {
        name: "flight",
        tree: 4,
        key: Key::Columns(&[1, 2]),
        columns: &[
            ("flight", Kind::Text),
            ("day", Kind::Integer),
            ("unload", Kind::Text),
            ("closed", Kind::Integer),
        ],
    },
    // The movement book.
    TableShape {
        name: "moves",
        tree: 6,
        key: Key::Number("number"),
        columns: &[
            ("awb", Kind::Integer),
            ("src", Kind::Integer),
            ("dst", Kind::Integer),
            ("pieces", Kind::Integer),
            ("tenths", Kind::Integer),
            ("flight", Kind::Text),
            ("fday", Kind::Integer),
            ("day", Kind::Integer),
            ("minute", Kind::Integer),
        ],
    },
    // The expectations on inbound flights.
    TableShape {
        name: "expected",
        tree: 8,
        key: Key::Columns(&[1, 2, 3]),
        columns: &[
            ("flight", Kind::Text),
            ("day", Kind::Integer),
            ("awb", Kind::Integer),
            ("pieces", Kind::Integer),
            ("tenths", Kind::Integer),
            ("checked", Kind::Integer),
        ],
    },
    // The parts of manifests that were taken.
    TableShape {
        name: "part",
        tree: 10,
        key: Key::Columns(&[1, 2, 3, 4]),
        columns: &[
            ("flight", Kind::Text),
            ("day", Kind::Integer),
            ("airport", Kind::Text),
            ("seq", Kind::Integer),
            ("body", Kind::Text),
        ],
    },
    // The trail.
    TableShape {
        name: "trail",
        tree: 12,
        key: Key::Number("number"),
        columns: &[("awb", Kind::Integer), ("line", Kind::Text)],
    },
    // The messages sent.
    TableShape {
        name: "outbox",
        tree: 13,
        key: Key::Number("number"),
        columns: &[("body", Kind::Text)],
    },
    // The commands accepted under their keys, with their counts.
    TableShape {
        name: "kept_key",
        tree: 14,
        key: Key::Columns(&[1]),
        columns: &[
            ("id", Kind::Text),
            ("command", Kind::Text),
            ("count", Kind::Integer),
        ],
    },
    // The telegrams that were taken, with their counts.
    TableShape {
        name: "kept_text",
        tree: 16,
        key: Key::Columns(&[1]),
        columns: &[("body", Kind::Text), ("count", Kind::Integer)],
    },
    // The balances of waybills, by place.
    TableShape {
        name: "counts",
        tree: 18,
        key: Key::Columns(&[1, 2]),
        columns: &[
            ("awb", Kind::Integer),
            ("place", Kind::Integer),
            ("pieces", Kind::Integer),
            ("tenths", Kind::Integer),
        ],
    },
    // The amounts built on flights.
    TableShape {
        name: "build",
        tree: 20,
        key: Key::Columns(&[1, 2, 3]),
        columns: &[
            ("flight", Kind::Text),
            ("day", Kind::Integer),
            ("awb", Kind::Integer),
            ("pieces", Kind::Integer),
            ("tenths", Kind::Integer),
        ],
    },
    // The waybills, each with the day of its last declaration.
    TableShape {
        name: "waybill2",
        tree: 22,
        key: Key::Number("awb"),
        columns: &[
            ("origin", Kind::Text),
            ("destination", Kind::Text),
            ("pieces", Kind::Integer),
            ("tenths", Kind::Integer),
            ("goods", Kind::Text),
            ("notified", Kind::Integer),
            ("since", Kind::Integer),
        ],
    },
];

/// The indexes, in that order. SQLite makes all but that of `moves`, each for a key.
pub(crate) const INDEXES: [IndexShape; 9] = [
    IndexShape {
        name: "sqlite_autoindex_stock_1",
        tree: 3,
        table: 2,
        places: &[1, 2],
        is_unique: true,
    },
    IndexShape {
        name: "sqlite_autoindex_flight_1",
        tree: 5,
        table: 4,
        places: &[1, 2],
        is_unique: true,
    },
    IndexShape {
        name: "moves_awb",
        tree: 7,
        table: 6,
        places: &[2],
        is_unique: false,
    },
    IndexShape {
        name: "sqlite_autoindex_expected_1",
        tree: 9,
        table: 8,
        places: &[1, 2, 3],
        is_unique: true,
    },
    IndexShape {
        name: "sqlite_autoindex_part_1",
        tree: 11,
        table: 10,
        places: &[1, 2, 3, 4],
        is_unique: true,
    },
    IndexShape {
        name: "sqlite_autoindex_kept_key_1",
        tree: 15,
        table: 14,
        places: &[1],
        is_unique: true,
    },
    IndexShape {
        name: "sqlite_autoindex_kept_text_1",
        tree: 17,
        table: 16,
        places: &[1],
        is_unique: true,
    },
    IndexShape {
        name: "sqlite_autoindex_counts_1",
        tree: 19,
        table: 18,
        places: &[1, 2],
        is_unique: true,
    },
    IndexShape {
        name: "sqlite_autoindex_build_1",
        tree: 21,
        table: 20,
        places: &[1, 2, 3],
        is_unique: true,
    },
];
