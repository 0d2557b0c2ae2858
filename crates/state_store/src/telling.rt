//! The readers of the state in a store, which change nothing.
ghost use Rattle.std.specs.Prelude.{◌≡◌, ◌≤◌, ℕ, ◌+◌, ◌-◌, length, map, IfOk};
ghost use Rattle.state_store.specs.Common.{sum_by, balances_of, store, IsLawful, declaration, told_of, waybill_of, irregular_rows, shed_rows, flight_row, AreFlightRows, expected_row, AreExpectedBy, stored_of, irregular_by, shed_by};
ghost use Rattle.shipment_machine.specs.Cargo.{Cargo as AnyCargo};
ghost use Rattle.state_store.specs.Store.{ReadsAtRest};

use crate::store::StateStore;
use crate::viewing::WaybillQuery;
use awb_number::Awb;
use row_sinks::StoreFault;
use shipment_machine::laws::conservation_law;
use shipment_machine::{Amount, Balances, Declared};
use station_core::{
    Expectation, ExpectedQuery, ExpectedRow, FlightRow, IrregularRow, Load, NotedFlight, ShedRow,
    Waybill, WaybillBalances,
};
use std::alloc::Global;

/// Returns the sum of what came in two ways, less what went in four.
fn left(
    taken: u32,
    found: u32,
    departed: u32,
    delivered: u32,
    missing: u32,
    transferred: u32,
) -> Result<u32, StoreFault>
    ensures rest { IfOk result (λ rest. rest
        ≡ taken + found - (departed + delivered + missing + transferred)) }
    ensures same { (n : ℕ) → taken + found ≡ n + departed + delivered + missing + transferred
        → IfOk result (λ rest. rest ≡ n) }
{
    let came = u64::from(taken) + u64::from(found);
    let gone = u64::from(departed)
        + u64::from(delivered)
        + u64::from(missing)
        + u64::from(transferred);
    if came < gone {
        return Err(StoreFault);
    }
    match u32::try_from(came - gone) {
        Ok(rest) => Ok(rest),
        Err(_) => Err(StoreFault),
    }
}

/// Returns the amount of a waybill in store: what was received or found, and hasn't departed,
/// wasn't delivered or transferred and isn't missing.
fn stored(balances: &Balances) -> Result<Amount, StoreFault>
    ensures left { IfOk result (λ amount. amount ≡ stored_of balances.now) }
    ensures lawful { (s : AnyCargo) (w : ℕ) → IsLawful s → balances.now ≡ balances_of s.book w
        → IfOk result (λ amount. amount ≡ store s.book w) }
{
    conservation_law();
    let Balances {
        taken,
        found,
        departed,
        delivered,
        missing,
        transferred,
        ..
    } = *balances;
    Ok(Amount {
        pieces: left(
            taken.pieces,
            found.pieces,
            departed.pieces,
            delivered.pieces,
            missing.pieces,
            transferred.pieces,
        )?,
        tenths: left(
            taken.tenths,
            found.tenths,
            departed.tenths,
            delivered.tenths,
            missing.tenths,
            transferred.tenths,
        )?,
    })
}

fn told_of(declared: Declared, balances: &Balances) -> Result<Waybill, StoreFault>
    ensures { (s : AnyCargo) (w : ℕ) → IsLawful s → balances.now ≡ balances_of s.book w
        → IfOk result (λ waybill. waybill ≡ told_of s w declared) }
{
    let store = stored(balances)?;
    Ok(Waybill {
        declared,
        taken: balances.taken,
        found: balances.found,
        store,
        departed: balances.departed,
        delivered: balances.delivered,
        missing: balances.missing,
        transferred: balances.transferred,
    })
}

/// Returns the record of a waybill, if it is declared, in two reads. The amount in store follows
/// from the other balances. Fails if a call of the store fails, or returned what no lawful state
/// has.
pub fn waybill_in<S: StateStore>(store: &mut S, number: &Awb) -> Result<Option<Waybill>, StoreFault>
    ensures { ReadsAtRest S.storing store.old store.new result
        (λ s waybill. IsLawful s.cargo → waybill ≡ waybill_of s.cargo number.now) }
{
    match store.declared(number)? {
        None => Ok(None),
        Some(declared) => {
            let balances = store.balances(number)?;
            Ok(Some(told_of(declared, &balances)?))
        }
    }
}

/// Returns the declaration of a known waybill.
fn declaration<S: StateStore>(store: &mut S, number: &Awb) -> Result<Declared, StoreFault>
    ensures { ReadsAtRest S.storing store.old store.new result
        (λ s declared. declared ≡ declaration s.cargo number.now) }
{
    match store.declared(number)? {
        None => Err(StoreFault),
        Some(declared) => Ok(declared),
    }
}

/// Returns a waybill with its missing and found pieces.
fn irregular_row<S: StateStore>(
    store: &mut S,
    waybill: &WaybillBalances,
) -> Result<IrregularRow, StoreFault>
    ensures { ReadsAtRest S.storing store.old store.new result
        (λ s row. row ≡ irregular_by s.cargo waybill.now) }
{
    let declared = declaration(store, &waybill.awb)?;
    Ok(IrregularRow {
        awb: waybill.awb,
        origin: declared.origin,
        destination: declared.destination,
        missing: waybill.balances.missing,
        found: waybill.balances.found,
    })
}

/// Returns waybills with their missing and found pieces.
fn irregular_among<S: StateStore>(
    alloc: Global,
    store: &mut S,
    waybills: &[WaybillBalances],
) -> Result<Vec<IrregularRow>, StoreFault>
    ensures { ReadsAtRest S.storing store.old store.new result
        (λ s rows. rows.items ≡ map (irregular_by s.cargo) waybills.now) }
{
    let mut rows = Vec::new(alloc);
    for waybill in waybills {
        rows.push(irregular_row(store, waybill)?)?;
    }
    Ok(rows)
}

/// Returns the waybills with missing or found pieces, ascending: one read for their balances, and
/// one for each. Fails if a call of the store fails, memory runs out, or such a waybill isn't
/// declared.
pub fn irregular_rows<S: StateStore>(
    alloc: Global,
    store: &mut S,
) -> Result<Vec<IrregularRow>, StoreFault>
    ensures { ReadsAtRest S.storing store.old store.new result
        (λ s rows. rows.items ≡ irregular_rows s.cargo) }
{
    let waybills = store.waybills(WaybillQuery::Irregular)?;
    irregular_among(alloc, store, &waybills)
}

/// Returns a waybill with its free and its built amount, which is the rest of the store.
fn shed_row<S: StateStore>(store: &mut S, waybill: &WaybillBalances) -> Result<ShedRow, StoreFault>
    ensures { ReadsAtRest S.storing store.old store.new result
        (λ s row. row ≡ shed_by s.cargo waybill.now) }
{
    let stored = stored(&waybill.balances)?;
    let declared = declaration(store, &waybill.awb)?;
    let free = waybill.balances.free;
    Ok(ShedRow {
        awb: waybill.awb,
        origin: declared.origin,
        destination: declared.destination,
        free,
        built: stored.less(free),
        notified: declared.notified,
    })
}

fn shed_among<S: StateStore>(
    alloc: Global,
    store: &mut S,
    waybills: &[WaybillBalances],
) -> Result<Vec<ShedRow>, StoreFault>
    ensures { ReadsAtRest S.storing store.old store.new result
        (λ s rows. rows.items ≡ map (shed_by s.cargo) waybills.now) }
{
    let mut rows = Vec::new(alloc);
    for waybill in waybills {
        rows.push(shed_row(store, waybill)?)?;
    }
    Ok(rows)
}

/// Returns the waybills with pieces in store, ascending: one read for their balances, and one for
/// each. Fails if a call of the store fails or returned what no lawful state has, or if memory runs
/// out.
pub fn shed_rows<S: StateStore>(alloc: Global, store: &mut S) -> Result<Vec<ShedRow>, StoreFault>
    ensures { ReadsAtRest S.storing store.old store.new result
        (λ s rows. IsLawful s.cargo → rows.items ≡ shed_rows s.cargo) }
{
    conservation_law();
    let waybills = store.waybills(WaybillQuery::Stored)?;
    shed_among(alloc, store, &waybills)
}

fn pieces_in(loads: &[Load]) -> u64
    requires few { length loads.now ≤ 65_535 }
    ensures { result ≡ sum_by (λ load. load.amount.pieces) loads.now }
{
    let mut sum = 0;
    for load in loads {
        sum += u64::from(load.amount.pieces);
    }
    sum
}

/// Returns the sum of weights.
fn tenths_in(loads: &[Load]) -> u64
    requires few { length loads.now ≤ 65_535 }
    ensures { result ≡ sum_by (λ load. load.amount.tenths) loads.now }
{
    let mut sum = 0;
    for load in loads {
        sum += u64::from(load.amount.tenths);
    }
    sum
}

fn flight_row<S: StateStore>(store: &mut S, noted: &NotedFlight) -> Result<FlightRow, StoreFault>
    ensures { ReadsAtRest S.storing store.old store.new result
        (λ s row. row ≡ flight_row s.cargo noted.now) }
{
    let loads = store.aboard(&noted.flight)?;
    let Ok(waybills) = u16::try_from(loads.len()) else {
        return Err(StoreFault);
    };
    Ok(FlightRow {
        noted: *noted,
        waybills,
        pieces: pieces_in(&loads),
        tenths: tenths_in(&loads),
    })
}

fn flights_among<S: StateStore>(
    alloc: Global,
    store: &mut S,
    flights: &[NotedFlight],
) -> Result<Vec<FlightRow>, StoreFault>
    ensures { ReadsAtRest S.storing store.old store.new result
        (λ s rows. rows.items ≡ map (flight_row s.cargo) flights.now) }
{
    let mut rows = Vec::new(alloc);
    for noted in flights {
        rows.push(flight_row(store, noted)?)?;
    }
    Ok(rows)
}

/// Returns the noted flights with their loads: one read for all, and one for each flight. Fails if
/// a call of the store fails, memory runs out, or a flight has more waybills than a lawful state.
pub fn flight_rows<S: StateStore>(
    alloc: Global,
    store: &mut S,
) -> Result<Vec<FlightRow>, StoreFault>
    ensures { ReadsAtRest S.storing store.old store.new result
        (λ s rows. AreFlightRows s.cargo rows.items) }
{
    let all = store.noted()?;
    flights_among(alloc, store, &all)
}

/// Returns an expectation with the waybill's route.
fn expected_row<S: StateStore>(
    store: &mut S,
    expectation: &Expectation,
) -> Result<ExpectedRow, StoreFault>
    ensures { ReadsAtRest S.storing store.old store.new result
        (λ s row. row ≡ expected_row s.cargo expectation.now) }
{
    let declared = declaration(store, &expectation.awb)?;
    Ok(ExpectedRow {
        expectation: *expectation,
        origin: declared.origin,
        destination: declared.destination,
    })
}

/// Returns expectations with the waybills' routes.
fn expected_among<S: StateStore>(
    alloc: Global,
    store: &mut S,
    expectations: &[Expectation],
) -> Result<Vec<ExpectedRow>, StoreFault>
    ensures { ReadsAtRest S.storing store.old store.new result
        (λ s rows. rows.items ≡ map (expected_row s.cargo) expectations.now) }
{
    let mut rows = Vec::new(alloc);
    for expectation in expectations {
        rows.push(expected_row(store, expectation)?)?;
    }
    Ok(rows)
}

/// Returns the queried expectations, by flight and then by waybill: one read for all, and one for
/// each line. Fails if a call of the store fails, memory runs out, or an expected waybill isn't
/// declared.
pub fn expected_rows<S: StateStore>(
    alloc: Global,
    store: &mut S,
    query: &ExpectedQuery,
) -> Result<Vec<ExpectedRow>, StoreFault>
    ensures { ReadsAtRest S.storing store.old store.new result
        (λ s rows. AreExpectedBy query.now s.cargo rows.items) }
{
    let asked = store.expectations(query)?;
    expected_among(alloc, store, &asked)
}
