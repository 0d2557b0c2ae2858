//! The views from which commands are planned. Each asks the store only for what its command reads.
//! Queries of waybills by their balances.

ghost use Rattle.std.specs.Prelude.{◌≡◌, IfOk, length, nat_lt};
ghost use Rattle.state_store.specs.Common.{rows_for, view_of, built, declaration_view, waybill_view, flight_view, loads_of, rows_of, stored_of};
ghost use Rattle.shipment_machine.specs.declared.view.Rows.TheVariants as rows;
ghost use Rattle.state_store.specs.Store.{Reads, Says, is_asked_for};

use crate::lines::{loads_of, part_rows};
use crate::store::StateStore;
use awb_number::Awb;
use row_sinks::StoreFault;
use shipment_machine::{
    Balances, DeclarationView, FlightDate, FlightView, Rows, RowsKey, ShipmentCommand, View,
    WaybillView,
};
use station_days::Moment;
use std::alloc::Global;

/// Returns the rows for a booking or an FWB.
fn declaration_rows<S: StateStore>(store: &mut S, awb: &Awb) -> Result<Rows, StoreFault>
    ensures { Reads S.storing store.old store.new result
        (λ s made. made ≡ rows.Declaration (declaration_view s.cargo awb.now)) }
{
    let declared = store.declared(awb)?;
    let has_moves = store.has_moves(awb)?;
    let holder = store.holder(awb)?;
    Ok(Rows::Declaration {
        waybill: DeclarationView {
            declared,
            has_moves,
            holder,
        },
    })
}

fn waybill_view<S: StateStore>(store: &mut S, awb: &Awb) -> Result<WaybillView, StoreFault>
    ensures { Reads S.storing store.old store.new result
        (λ s view. view ≡ waybill_view s.cargo awb.now) }
{
    let declared = store.declared(awb)?;
    let balances = store.balances(awb)?;
    Ok(WaybillView { declared, balances })
}

fn waybill_rows<S: StateStore>(store: &mut S, awb: &Awb) -> Result<Rows, StoreFault>
    ensures { Reads S.storing store.old store.new result
        (λ s made. made ≡ rows.Waybill (waybill_view s.cargo awb.now)) }
{
    let waybill = waybill_view(store, awb)?;
    Ok(Rows::Waybill { waybill })
}

/// Converts a number of waybills on a flight.
fn few(count: usize) -> Result<u16, StoreFault>
    ensures { IfOk result (λ number. number ≡ count) }
{
    match u16::try_from(count) {
        Ok(number) => Ok(number),
        Err(_) => Err(StoreFault),
    }
}

/// Returns a flight, viewed from a waybill to be built on it.
fn flight_view<S: StateStore>(
    store: &mut S,
    awb: &Awb,
    flight: &FlightDate,
) -> Result<FlightView, StoreFault>
    ensures { Reads S.storing store.old store.new result
        (λ s view. view ≡ flight_view s.cargo awb.now flight.now) }
{
    let outbound = store.outbound(flight)?;
    let waybills = store.waybills_on(flight)?;
    let load = store.load(awb, flight)?;
    Ok(FlightView {
        outbound,
        waybills: few(waybills)?,
        load,
    })
}

fn manifest_rows<S: StateStore>(
    store: &mut S,
    awb: &Awb,
    flight: &FlightDate,
) -> Result<Rows, StoreFault>
    ensures { Reads S.storing store.old store.new result
        (λ s made. made ≡ rows.Manifest (waybill_view s.cargo awb.now)
        (flight_view s.cargo awb.now flight.now)) }
{
    let waybill = waybill_view(store, awb)?;
    let beside = flight_view(store, awb, flight)?;
    Ok(Rows::Manifest {
        waybill,
        flight: beside,
    })
}

fn offload_rows<S: StateStore>(
    store: &mut S,
    awb: &Awb,
    flight: &FlightDate,
) -> Result<Rows, StoreFault>
    ensures { Reads S.storing store.old store.new result
        (λ s made. made ≡ rows.Offload (s.cargo.declared awb.now) (s.cargo.flights flight.now)
        (built s.cargo.book awb.now flight.now)) }
{
    let declared = store.declared(awb)?;
    let outbound = store.outbound(flight)?;
    let load = store.load(awb, flight)?;
    Ok(Rows::Offload {
        declared,
        outbound,
        load,
    })
}

fn departure_rows<S: StateStore>(
    alloc: Global,
    store: &mut S,
    flight: &FlightDate,
) -> Result<Rows, StoreFault>
    ensures { Reads S.storing store.old store.new result
        (λ s made. made ≡ rows.Departure (s.cargo.flights flight.now)
        (loads_of s.cargo flight.now)) }
{
    let outbound = store.outbound(flight)?;
    let loads = loads_of(alloc, store, flight)?;
    Ok(Rows::Departure { outbound, loads })
}

fn check_in_rows<S: StateStore>(
    store: &mut S,
    awb: &Awb,
    flight: &FlightDate,
) -> Result<Rows, StoreFault>
    ensures { Reads S.storing store.old store.new result
        (λ s made. made ≡ rows.CheckIn (waybill_view s.cargo awb.now)
        (s.cargo.expected flight.now awb.now)) }
{
    let waybill = waybill_view(store, awb)?;
    let expected = store.expected(flight, awb)?;
    Ok(Rows::CheckIn { waybill, expected })
}

fn status_rows<S: StateStore>(store: &mut S, awb: &Awb) -> Result<Rows, StoreFault>
    ensures { Reads S.storing store.old store.new result
        (λ s made. made ≡ rows.Status (s.cargo.declared awb.now)) }
{
    let declared = store.declared(awb)?;
    Ok(Rows::Status { declared })
}

fn message_rows<S: StateStore>(store: &S) -> Rows
    ensures { Says S.storing store.now
        (λ s. result ≡ rows.Messages s.cargo.confirmed (length s.cargo.outbox)) }
{
    let sizes = store.sizes();
    Rows::Messages {
        confirmed: store.confirmed(),
        last: sizes.messages,
    }
}

fn desk_rows<S: StateStore>(alloc: Global, store: &mut S, key: &RowsKey) -> Result<Rows, StoreFault>
    ensures { Reads S.storing store.old store.new result
        (λ s made. made ≡ rows_of s.cargo key.now) }
{
    match key {
        RowsKey::Declaration(awb) => declaration_rows(store, awb),
        RowsKey::Waybill(awb) => waybill_rows(store, awb),
        RowsKey::Manifest(awb, flight) => manifest_rows(store, awb, flight),
        RowsKey::Offload(awb, flight) => offload_rows(store, awb, flight),
        RowsKey::Departure(flight) => departure_rows(alloc, store, flight),
        RowsKey::CheckIn(awb, flight) => check_in_rows(store, awb, flight),
        RowsKey::Messages => Ok(message_rows(store)),
    }
}

fn rows_for<S: StateStore>(
    alloc: Global,
    store: &mut S,
    command: &ShipmentCommand<'_>,
    at: Moment,
) -> Result<Rows, StoreFault>
    ensures { Reads S.storing store.old store.new result
        (λ s made. made ≡ rows_for s.cargo command.now at) }
{
    match command {
        ShipmentCommand::Desk(desk) => desk_rows(alloc, store, &desk.get().reads()),
        ShipmentCommand::Fwb(line) => declaration_rows(store, &line.get().awb),
        ShipmentCommand::Ffm(part) => part_rows(alloc, store, part, at),
        ShipmentCommand::Fsu(status) => status_rows(store, &status.awb),
    }
}

/// Returns the view for a command, without asking the store for anything else. Fails if a call of
/// the store fails, or memory runs out.
pub fn view<S: StateStore>(
    alloc: Global,
    store: &mut S,
    command: &ShipmentCommand<'_>,
    at: Moment,
) -> Result<View, StoreFault>
    ensures { Reads S.storing store.old store.new result
        (λ s view. view ≡ view_of s.cargo command.now at) }
{
    let rows = rows_for(alloc, store, command, at)?;
    Ok(View {
        here: store.here(),
        rows,
    })
}

/// A query of waybills.
#[derive(Clone, Copy)]
pub enum WaybillQuery {
    /// The waybills with pieces in store.
    Stored,
    /// The waybills with missing or found pieces.
    Irregular,
}

/// Returns whether pieces are in store: more came in than left or are missing.
fn has_stored(balances: Balances) -> bool
    ensures { result ≡ nat_lt 0 (stored_of balances).pieces }
{
    let came = u64::from(balances.taken.pieces) + u64::from(balances.found.pieces);
    let gone = u64::from(balances.departed.pieces)
        + u64::from(balances.delivered.pieces)
        + u64::from(balances.missing.pieces)
        + u64::from(balances.transferred.pieces);
    gone < came
}

impl WaybillQuery {
    /// Returns whether the query includes a waybill with these balances.
    pub fn asks_for(&self, balances: &Balances) -> bool
        ensures { result ≡ is_asked_for self.now balances.now }
    {
        match self {
            WaybillQuery::Stored => has_stored(*balances),
            WaybillQuery::Irregular => balances.missing.pieces > 0 || balances.found.pieces > 0,
        }
    }
}
