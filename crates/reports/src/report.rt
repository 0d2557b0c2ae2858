//! Names of reports.
//! Listings.
//! Laws about the definitions: each report has exactly one text.

ghost use Rattle.std.specs.Prelude.{◌≡◌, ℕ, List, filter};
ghost use Rattle.reports.specs.Reports.{report_called, listing_called, IsStockReport, IsFlightReport, IsExpectedReport, is_awaited};
ghost use Rattle.reports.specs.Common.{Holders, AreStockRuns, StockRun, Cargo, AreExpectedBy, AreExpectedRows, Open, ExpectedRow};

use agent_stock::AgentCode;
use awb_number::Awb;
use shipment_machine::FlightDate;
use station_core::{ActFault, Key};

/// The reason why a report broke off.
#[derive(Clone, Copy)]
pub enum ReportCause {
    /// The writer failed, or wrote 0 bytes.
    Write,
    /// The keeper's fault, or `Memory` if memory ran out for a line. Buffered bytes aren't written.
    Act(ActFault),
}

/// A report that broke off.
#[derive(Clone, Copy)]
pub struct ReportFault {
    /// The number of bytes written: a prefix of the text before the report and the report.
    pub sent: u64,
    pub cause: ReportCause,
}

/// A report of a station.
#[derive(Clone, Copy, PartialEq, Eq)]
pub enum Report {
    /// The stock as maximal runs of one holder, ascending: `020 1234567 1234569        3 DESK`.
    Stock,
    /// The declared waybills of which nothing has come in, ascending:
    /// `020-12345675 FRAJFK   10   100.0 2026-01-12 CONSOLIDATION`.
    Announced,
    /// The waybills with pieces in store, ascending:
    /// `020-12345675 FRAJFK free    6    60.0 built    4    40.0 -`.
    Shed,
    /// The same, each behind the day since which pieces of it have been in store without a break.
    ShedDays,
    /// The noted flights, by their written form and then by day: `LH400/2026-01-12   JFK    1    4
    /// 40.0 open`.
    Flights,
    /// The expectations, by flight and then by waybill: `LH400/2026-01-12   020-12345675 FRAJFK
    /// 10   100.0 open`.
    Expected,
    /// The waybills with missing or found pieces.
    Irregularities,
    /// The same, each behind the day since which it has had missing or found pieces without a
    /// break.
    IrregularityDays,
    /// The movement book.
    Movements,
    /// The lines of arrived status messages.
    Trail,
    /// The unconfirmed messages, each after a line with its number and its length.
    Pending,
    /// All messages, confirmed or not, in the same form.
    Sent,
    /// The station at a glance: `FRA moves 3 trail 0 messages 4 confirmed 3 program 1.0.0 files 2`.
    Station,
}

impl Report {
    /// Returns the report with a name. `Pending` has none.
    pub fn read(name: &[u8]) -> Option<Report>
        ensures { result ≡ report_called name.now }
    {
        if name == b"stock".as_slice() {
            Some(Report::Stock)
        } else if name == b"announced".as_slice() {
            Some(Report::Announced)
        } else if name == b"shed".as_slice() {
            Some(Report::Shed)
        } else if name == b"shed-days".as_slice() {
            Some(Report::ShedDays)
        } else if name == b"flights".as_slice() {
            Some(Report::Flights)
        } else if name == b"expected".as_slice() {
            Some(Report::Expected)
        } else if name == b"irregularities".as_slice() {
            Some(Report::Irregularities)
        } else if name == b"irregularity-days".as_slice() {
            Some(Report::IrregularityDays)
        } else if name == b"movements".as_slice() {
            Some(Report::Movements)
        } else if name == b"trail".as_slice() {
            Some(Report::Trail)
        } else if name == b"sent".as_slice() {
            Some(Report::Sent)
        } else if name == b"station".as_slice() {
            Some(Report::Station)
        } else {
            None
        }
    }
}

/// A listing of rows, in the order of the report that has all of them.
#[derive(Clone, Copy, PartialEq, Eq)]
pub enum Listing {
    /// All rows of a report.
    All(Report),
    /// The noted flights that haven't departed.
    OpenFlights,
    /// The expectations that aren't checked in.
    OpenExpected,
    /// The waybills with missing or found pieces that don't even out: the pieces in store and those
    /// that left aren't as many as are declared.
    OpenIrregularities,
    /// The runs of the stock that an agent holds.
    AgentStock(AgentCode),
    /// The movements of a waybill, with their numbers in the movement book.
    Movements(Awb),
    /// The movements with a greater number.
    MovementsAfter(u32),
    /// The last movements, at most this many.
    MovementsLast(u32),
    /// The lines of the trail of a waybill, with their numbers in the trail.
    Trail(Awb),
    /// The lines of the trail with a greater number. The first line has number 1.
    TrailAfter(u32),
    /// The last lines of the trail, at most this many.
    TrailLast(u32),
    /// The unconfirmed messages with a greater number.
    PendingAfter(u32),
    /// The messages with a greater number, confirmed or not.
    SentAfter(u32),
    /// The status messages of a waybill, confirmed or not.
    Sent(Awb),
    /// The command that was accepted under a key, if there is one, as the only row.
    Kept(Key),
    /// The manifest of a flight, ascending by waybill: the pieces built for it now, and those that
    /// departed with it.
    Manifest(FlightDate),
    /// The announced waybills of a flight: what came of each, and what is missing.
    Arrivals(FlightDate),
}

impl Listing {
    /// Returns the listing with a name: `open-flights`, `open-expected`, `open-irregularities`, or
    /// a whole report (see [`Report::read`]). The other listings have no name.
    pub fn read(name: &[u8]) -> Option<Listing>
        ensures { result ≡ listing_called name.now }
    {
        if name == b"open-flights".as_slice() {
            Some(Listing::OpenFlights)
        } else if name == b"open-expected".as_slice() {
            Some(Listing::OpenExpected)
        } else if name == b"open-irregularities".as_slice() {
            Some(Listing::OpenIrregularities)
        } else {
            match Report::read(name) {
                Some(report) => Some(Listing::All(report)),
                None => None,
            }
        }
    }
}

/// A stock has one list of maximal runs, and its report has one text.
pub fn stock_report_law()
    ensures runs { (holders : Holders) (rows others : List StockRun) → AreStockRuns holders rows
        → AreStockRuns holders others → rows ≡ others }
    ensures text { (holders : Holders) (text other : List ℕ) → IsStockReport holders text
        → IsStockReport holders other → text ≡ other }
{}

/// A cargo has one list of noted flights, and its report has one text.
pub fn flight_report_law()
    ensures { (s : Cargo) (text other : List ℕ) → IsFlightReport s text
        → IsFlightReport s other → text ≡ other }
{}

/// A cargo has one list of expectations, and its report has one text.
pub fn expected_report_law()
    ensures { (s : Cargo) (text other : List ℕ) → IsExpectedReport s text
        → IsExpectedReport s other → text ≡ other }
{}

/// The open expectations are those that weren't checked in.
pub fn open_expected_law()
    ensures { (s : Cargo) (rows : List ExpectedRow) → AreExpectedRows s rows
        → AreExpectedBy Open s (filter is_awaited rows) }
{}
