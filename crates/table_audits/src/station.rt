ghost use Rattle.std.specs.Prelude.{◌≡◌, ◌↔◌, ◌∷◌, [], IfSome, IsSome};
ghost use Rattle.table_audits.specs.Common.{Tables, natural, new_row};
ghost use Rattle.table_audits.specs.Lawful.{IsLawfulTable};
ghost use Rattle.table_audits.specs.declared.name.TableName.TheVariants as table;

use crate::book::{Book, BookBeside};
use crate::rows::Known;
use crate::sums::BookSums;
use imp_fields::Airport;
use row_codec::count_of;
use std::alloc::Global;
use table_load::FileVersion;

/// Audits the row of `station`. Returns what later audits need of it, or `None` if it is unlawful.
pub(crate) fn audited_row(
    alloc: Global,
    version: FileVersion,
    airport: &str,
    confirmed: i64,
) -> Option<Known>
    ensures exact { (t : Tables) → t.stations ≡ new_row airport.now confirmed ∷ []
        → (IsSome result ↔ IsLawfulTable table.Station t) }
    ensures told { IfSome result (λ known. (known.version ≡ version)
        × (known.here ≡ airport.now) × (known.confirmed ≡ natural confirmed)) }
{
    let here = Airport::read(airport.as_bytes())?;
    let confirmed = count_of(confirmed)?;
    Some(Known {
        version,
        here,
        confirmed,
        beside: BookBeside {
            waybills: Vec::new(alloc),
            flights: Vec::new(alloc),
        },
        book: Book {
            sums: BookSums::new(alloc),
            moves: 0,
        },
        parts: Vec::new(alloc),
        lines: 0,
        messages: 0,
    })
}
