//! Values of fields, before the command is known.

ghost use Rattle.std.specs.Prelude.{◌≡◌, ◌≤◌, ◌<◌, ◌^◌, IfSome, option_map};
ghost use Rattle.desk_commands.specs.Common.{result_ok, number_of};
ghost use Rattle.desk_commands.specs.Command.{text_in, number_in, digits_of, digits_in, awb_of, awb_in, airport_in, airline_in, pieces_in, tenths_in, name_in, goods_in, agent_in, counted_in, count_in, flight_in, day_in, flight_date_in, flight_if_any_in, run_in};

use crate::day::{Text, read_day};
use agent_stock::{AgentCode, Run, RunCount};
use awb_number::{Awb, decimal};
use imp_fields::{Airport, Flight, Goods, Name, Pieces, Tenths};
use shipment_machine::{Airline, FlightDate, PieceCount};
use station_days::LocalDay;

#[derive(Drop)]
pub(crate) enum FieldValue<'a> {
    Text(Text<'a>),
    Number(u32),
    Flight(Flight),
    /// The field is absent.
    Absent,
}

/// Reads a number of exactly `width` digits.
fn digits(text: &[u8], width: usize) -> Option<u32>
    requires { width ≤ 9 }
    ensures value { result ≡ digits_of width text.now }
    ensures bound { IfSome result (λ n. n < 10 ^ width) }
{
    if text.len() != width {
        return None;
    }
    decimal(text)
}

fn read_twelve(bytes: &[u8; 12]) -> Option<Awb>
    ensures { result ≡ result_ok (number_of bytes.now) }
{
    match Awb::read(bytes) {
        Ok(awb) => Some(awb),
        Err(_) => None,
    }
}

/// Returns the waybill number if the whole text is one.
fn read_awb(text: &[u8]) -> Option<Awb>
    ensures { result ≡ awb_of text.now }
{
    let bytes = <[u8; 12]>::try_from(text).ok()?;
    read_twelve(&bytes)
}

impl FieldValue<'_> {
    fn text(&self) -> Option<&[u8]>
        ensures { option_map (λ t. t.now) result ≡ text_in self.now }
    {
        match self {
            FieldValue::Text(text) => Some(text.as_bytes()),
            _ => None,
        }
    }

    fn digits(&self, width: usize) -> Option<u32>
        requires { width ≤ 9 }
        ensures value { result ≡ digits_in width self.now }
        ensures bound { IfSome result (λ n. n < 10 ^ width) }
    {
        digits(self.text()?, width)
    }

    /// Returns the number.
    pub(crate) fn number(&self) -> Option<u32>
        ensures { result ≡ number_in self.now }
    {
        match self {
            FieldValue::Number(number) => Some(*number),
            _ => None,
        }
    }

    /// Returns the flight, without its day.
    fn flight(&self) -> Option<Flight>
        ensures { result ≡ flight_in self.now }
    {
        match self {
            FieldValue::Flight(flight) => Some(*flight),
            _ => None,
        }
    }

    fn day(&self) -> Option<LocalDay>
        ensures { result ≡ day_in self.now }
    {
        read_day(self.text()?)
    }

    fn count(&self) -> Option<RunCount>
        ensures { result ≡ count_in self.now }
    {
        RunCount::new(self.number()?)
    }

    pub(crate) fn awb(&self) -> Option<Awb>
        ensures { result ≡ awb_in self.now }
    {
        read_awb(self.text()?)
    }

    pub(crate) fn airport(&self) -> Option<Airport>
        ensures { result ≡ airport_in self.now }
    {
        Airport::read(self.text()?)
    }

    pub(crate) fn airline(&self) -> Option<Airline>
        ensures { result ≡ airline_in self.now }
    {
        Airline::read(self.text()?)
    }

    pub(crate) fn name(&self) -> Option<Name>
        ensures { result ≡ name_in self.now }
    {
        Name::read(self.text()?)
    }

    pub(crate) fn goods(&self) -> Option<Goods>
        ensures { result ≡ goods_in self.now }
    {
        Goods::read(self.text()?)
    }

    pub(crate) fn agent(&self) -> Option<AgentCode>
        ensures { result ≡ agent_in self.now }
    {
        AgentCode::read(self.text()?)
    }

    pub(crate) fn pieces(&self) -> Option<Pieces>
        ensures { result ≡ pieces_in self.now }
    {
        Pieces::new(self.number()?)
    }

    pub(crate) fn tenths(&self) -> Option<Tenths>
        ensures { result ≡ tenths_in self.now }
    {
        Tenths::new(self.number()?)
    }

    pub(crate) fn counted(&self) -> Option<PieceCount>
        ensures { result ≡ counted_in self.now }
    {
        PieceCount::new(self.number()?)
    }
}

/// Returns the run of a three-digit prefix, a seven-digit serial and a count.
pub(crate) fn run(
    prefix: &FieldValue<'_>,
    serial: &FieldValue<'_>,
    count: &FieldValue<'_>,
) -> Option<Run>
    ensures { result ≡ run_in prefix.now serial.now count.now }
{
    let prefix = prefix.digits(3)?;
    let serial = serial.digits(7)?;
    let count = count.count()?;
    let first = Awb::new(prefix as u16, serial)?;
    Some(Run { first, count })
}

pub(crate) fn flight_date(flight: &FieldValue<'_>, day: &FieldValue<'_>) -> Option<FlightDate>
    ensures { result ≡ flight_date_in flight.now day.now }
{
    let flight = flight.flight()?;
    let day = day.day()?;
    Some(FlightDate { flight, day })
}

/// Returns the flight on its day, or `Some(None)` if both are absent.
pub(crate) fn flight_if_any(
    flight: &FieldValue<'_>,
    day: &FieldValue<'_>,
) -> Option<Option<FlightDate>>
    ensures { result ≡ flight_if_any_in flight.now day.now }
{
    match (flight, day) {
        (FieldValue::Absent, FieldValue::Absent) => Some(None),
        _ => match flight_date(flight, day) {
            Some(named) => Some(Some(named)),
            None => None,
        },
    }
}
