use awb_number::Awb;
use desk_commands::Verb;
use imp_fields::Airport;
use reports::{Form, Listing};
use station_core::Key;

/// A command line.
#[derive(Drop)]
pub struct Line<'a> {
    /// The path of the station's file. Without one the station is in memory.
    pub db: Option<&'a str>,
    /// The port of the running service to ask instead of a file.
    pub at: Option<u16>,
    /// The station's airport.
    pub station: Option<Airport>,
    /// The rule of the local time zone, `UTC0` by default.
    pub zone: &'a str,
    pub command: LineCommand<'a>,
}

/// A command, with its arguments.
#[derive(Drop)]
pub enum LineCommand<'a> {
    /// Make a station in a file.
    Init,
    /// Upgrade a file from version 1 to version 2.
    Migrate,
    /// Answer a stock list.
    Stock,
    /// Take the telegrams in these files, one after another.
    Take(Vec<&'a str>),
    /// Run a command, whose body is read.
    Act { verb: Verb, key: Key },
    /// Run the commands and take the telegrams that are read, each on a line.
    Acts,
    /// Dry-run the telegram in this file, without a station.
    Read(&'a str),
    /// Print the pending messages.
    Outbox(Form),
    /// Print a report, or a part of one.
    Report(Listing, Form),
    /// Print the record of a waybill, its moves and its trail.
    History(Awb),
    /// Print the record of a waybill.
    Waybill(Awb),
    /// Print the holder of a number.
    Holder(Awb),
    /// Serve HTTP on a port, until `count` connections were served.
    Serve { port: u16, count: Option<u32> },
}
