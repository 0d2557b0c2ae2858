ghost use Rattle.std.specs.Prelude.{◌↔◌, ◌≡◌, IsTrue, List};
ghost use Rattle.table_audits.specs.Common.{IsLawfulState, Tables, IsStation, IsOldStation, tables_of, old_tables_of, upgraded, Flight, FlightKey, flight_cmp, meaning_of, IsReadable, Database, First, Second, Reading, read_as, list_all, FinMap, entries, FlightDate, is_flight_row};
ghost use Rattle.table_audits.specs.declared.name.TableName.{TableName};
ghost use Rattle.table_audits.specs.Lawful.{IsLawfulTable};
ghost use Rattle.table_audits.specs.declared.rows.Unfit.{Unfit};
ghost use Rattle.table_audits.specs.Verdict.{IsStationOf, IsUnfit};
ghost use Rattle.table_audits.specs.Moves.{AreDistinct, AreFlightsOf, flights_of};

/// Tables that are lawful one by one are exactly those that mean a lawful state.
pub fn lawful_tables_mean()
    ensures { (t : Tables) → ((name : TableName) → IsLawfulTable name t) ↔ (IsReadable t
        × IsLawfulState (meaning_of t)) }
{}

/// A database with a station's tables, all of them lawful, is never unfit.
#[tactic(auto, using(crate::proofs::Judged::fit))]
pub fn station_is_fit()
    ensures { (db : Reading) (t : Tables) → IsStationOf db t → (unfit : Unfit)
        → ¬ IsUnfit db unfit }
{}

/// A station's tables are all lawful. In a database with the tables that a station declares, they
/// are its typed tables; in a file of version 1 those after an upgrade.
pub fn station_is_typed()
    ensures lawful { (db : Reading) (t : Tables) → IsStationOf db t → (name : TableName)
        → IsLawfulTable name t }
    ensures typed { (db : Database) (t : Tables) → IsStation db → IsStationOf (read_as Second db) t
        → tables_of db.trees ≡ t }
    ensures old { (db : Database) (t : Tables) → IsOldStation db → IsStationOf (read_as First db) t
        → upgraded (old_tables_of db.trees) ≡ t }
{}

/// A database with the tables that a station declares is a station's if its typed tables are all
/// lawful.
pub fn lawful_is_station()
    ensures { (db : Database) → IsStation db
        → ((name : TableName) → IsLawfulTable name (tables_of db.trees))
        → IsStationOf (read_as Second db) (tables_of db.trees) }
{}

/// Rows of `flight` that are in range name flights in the order of their keys, and such flights
/// occur once each.
pub fn flights_listed()
    ensures listed { (m : FinMap flight_cmp Flight) → IsTrue (list_all is_flight_row (entries m))
        → AreFlightsOf (flights_of (entries m)) (entries m) }
    ensures distinct { (flights : List FlightDate) (rows : List (FlightKey × Flight))
        → AreFlightsOf flights rows → AreDistinct flights }
{}
