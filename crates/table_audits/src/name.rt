ghost use Rattle.std.specs.Prelude.{◌≡◌, ◌∷◌, MatchOption};
ghost use Rattle.table_audits.specs.Verdict.{before, name_text};
ghost use Rattle.table_audits.specs.declared.name.TableName.TheVariants as table;

use std::fmt;

/// The tables of a station, in the order of their audits: each is tested against those before it.
#[derive(Clone, Copy, Debug)]
pub enum TableName {
    /// The station's one row: its airport, the version of the file, and the number of the last
    /// confirmed message.
    Station,
    /// The declarations in files of version 1, otherwise empty.
    Waybill,
    /// The declaration of each air waybill, with its day.
    Waybill2,
    /// The stock of air waybill numbers, by runs.
    Stock,
    /// Outbound flights.
    Flight,
    /// The movement book.
    Moves,
    /// The expectations on inbound flights.
    Expected,
    /// The parts of the manifests that were read.
    Part,
    /// The lines of status messages.
    Trail,
    /// The messages sent.
    Outbox,
    /// The commands accepted under each key.
    KeptKey,
    /// The telegrams that were accepted.
    KeptText,
    /// The running counts of each waybill, by place.
    Counts,
    /// The amounts built on each flight.
    Build,
}

impl TableName {
    /// The table's name in the database.
    pub fn as_str(&self) -> &'static str
        ensures { result.now ≡ name_text self.now }
    {
        match self {
            TableName::Station => "station",
            TableName::Waybill => "waybill",
            TableName::Waybill2 => "waybill2",
            TableName::Stock => "stock",
            TableName::Flight => "flight",
            TableName::Moves => "moves",
            TableName::Expected => "expected",
            TableName::Part => "part",
            TableName::Trail => "trail",
            TableName::Outbox => "outbox",
            TableName::KeptKey => "kept_key",
            TableName::KeptText => "kept_text",
            TableName::Counts => "counts",
            TableName::Build => "build",
        }
    }

    /// Returns the table that is audited after this one.
    pub(crate) fn next(self) -> Option<TableName>
        ensures { MatchOption result (self ≡ table.Build)
            (λ next. before next ≡ self ∷ before self) }
    {
        match self {
            TableName::Station => Some(TableName::Waybill),
            TableName::Waybill => Some(TableName::Waybill2),
            TableName::Waybill2 => Some(TableName::Stock),
            TableName::Stock => Some(TableName::Flight),
            TableName::Flight => Some(TableName::Moves),
            TableName::Moves => Some(TableName::Expected),
            TableName::Expected => Some(TableName::Part),
            TableName::Part => Some(TableName::Trail),
            TableName::Trail => Some(TableName::Outbox),
            TableName::Outbox => Some(TableName::KeptKey),
            TableName::KeptKey => Some(TableName::KeptText),
            TableName::KeptText => Some(TableName::Counts),
            TableName::Counts => Some(TableName::Build),
            TableName::Build => None,
        }
    }
}
