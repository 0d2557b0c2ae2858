//! The trees of a station's file: the tables and the indexes that `init` makes, in order.
//! The start of two files before recovery. Nothing is written.

ghost use Rattle.std.specs.Prelude.{◌≡◌, ◌≢◌, ◌%◌, false, ℕ, IsTrue, IfErr, IfOk};
ghost use Rattle.station_files.specs.Opened.{name_of, ListsStation};
ghost use Rattle.station_files.specs.Common.{bytes_of, AreClean, OnlyReads, stored_size, image_of, BeginsWell};
ghost use Rattle.station_files.specs.Listed.{HoldsPages, MayRefuse};

use sqlite_disk::{Disk, Files};
use sqlite_store::OpenError;
use sqlite_trees::schema::Object;
use sqlite_trees::store::Shape;
use sqlite_value::keys::Order;
use sqlite_wal::{PageSize, probe_first_page, probe_page_size};
use station_schema::declarations::{
    BUILD, COUNTS, EXPECTED, FLIGHT, KEPT_KEY, KEPT_TEXT, MOVES, MOVES_AWB, OUTBOX, PART, STATION,
    STOCK, TRAIL, WAYBILL, WAYBILL2,
};
use std::alloc::Global;

/// The number of trees in a file of version 1: the first ones.
pub const OLD_TREES: usize = 22;

fn table(name: &'static str, sql: &'static str) -> Object<'static>
    ensures { name_of result ≡ (name.now, 1, 0) }
{
    Object {
        shape: Shape::Table,
        kind: "table",
        name,
        table: name,
        reals: 0,
        sql: Some(sql),
    }
}

/// Returns an index of a table, with its text, or without one for the index of a key.
fn index(name: &'static str, table: &'static str, sql: Option<&'static str>) -> Object<'static>
    ensures { name_of result ≡ (name.now, 2, 0) }
{
    Object {
        shape: Shape::Index(Order::PLAIN),
        kind: "index",
        name,
        table,
        reals: 0,
        sql,
    }
}

/// Returns the trees, each with the text by which `init` declares it.
pub fn station_trees() -> [Object<'static>; 23]
    ensures { ListsStation result }
{
    [
        table("station", STATION),
        table("waybill", WAYBILL),
        table("stock", STOCK),
        index("sqlite_autoindex_stock_1", "stock", None),
        table("flight", FLIGHT),
        index("sqlite_autoindex_flight_1", "flight", None),
        table("moves", MOVES),
        index("moves_awb", "moves", Some(MOVES_AWB)),
        table("expected", EXPECTED),
        index("sqlite_autoindex_expected_1", "expected", None),
        table("part", PART),
        index("sqlite_autoindex_part_1", "part", None),
        table("trail", TRAIL),
        table("outbox", OUTBOX),
        table("kept_key", KEPT_KEY),
        index("sqlite_autoindex_kept_key_1", "kept_key", None),
        table("kept_text", KEPT_TEXT),
        index("sqlite_autoindex_kept_text_1", "kept_text", None),
        table("counts", COUNTS),
        index("sqlite_autoindex_counts_1", "counts", None),
        table("build", BUILD),
        index("sqlite_autoindex_build_1", "build", None),
        table("waybill2", WAYBILL2),
    ]
}

/// Bytes 20 to 23 of the header of a database whose pages end with checksums.
const WITH_SUMS: u32 = 0x0840_2020;

/// Returns the page size that two files name. Refuses files that name none, or one that SQLite
/// doesn't allow.
pub(crate) fn named_size<D: Disk>(files: &mut Files<D>) -> Result<PageSize, OpenError>
    requires log { IsTrue (D.Disk.is_usable files.old.log) }
    requires db { IsTrue (D.Disk.is_usable files.old.db) }
    ensures none { IfErr result (λ e. e ≡ OpenError.Refused
        → AreClean D.Disk files.new.log files.new.db
        → (n : ℕ) → ¬ HoldsPages n (image_of D.Disk files.old)) }
    ensures sized { IfOk result (λ size. AreClean D.Disk files.new.log files.new.db
        → (n : ℕ) → HoldsPages n (image_of D.Disk files.old) → stored_size n ≡ bytes_of size) }
    ensures log { OnlyReads D.Disk files.old.log files.new.log }
    ensures db { OnlyReads D.Disk files.old.db files.new.db }
{
    match probe_page_size(files) {
        Ok(Some(size)) => Ok(size),
        Ok(None) => Err(OpenError::Refused),
        Err(_) => Err(OpenError::Io),
    }
}

/// Returns the reason why the first page can't be read.
fn unread(error: sqlite_wal::Error) -> OpenError
    ensures { result ≡ OpenError.Refused → MayRefuse error }
{
    match error {
        sqlite_wal::Error::OutOfMemory => OpenError::OutOfMemory,
        sqlite_wal::Error::Io(_) => OpenError::Io,
        sqlite_wal::Error::Full => OpenError::Full,
        _ => OpenError::Refused,
    }
}

/// Returns whether two files with pages of a size begin like a database whose pages have no
/// checksums.
pub(crate) fn begins_plain<D: Disk>(
    alloc: Global,
    files: &mut Files<D>,
    size: PageSize,
) -> Result<bool, OpenError>
    requires log { IsTrue (D.Disk.is_usable files.old.log) }
    requires db { IsTrue (D.Disk.is_usable files.old.db) }
    ensures plain { IfOk result (λ is. IsTrue is → AreClean D.Disk files.new.log files.new.db
        → (n : ℕ) → HoldsPages n (image_of D.Disk files.old)
        → stored_size n ≡ bytes_of size → n ≡ bytes_of size) }
    ensures sums { IfOk result (λ is. is ≡ false → AreClean D.Disk files.new.log files.new.db
        → (n : ℕ) → HoldsPages n (image_of D.Disk files.old)
        → stored_size n ≡ bytes_of size → n % 16 ≡ 8) }
    ensures unread { IfErr result (λ e. e ≡ OpenError.Refused
        → AreClean D.Disk files.new.log files.new.db
        → (n : ℕ) → HoldsPages n (image_of D.Disk files.old)
        → stored_size n ≢ bytes_of size) }
    ensures begins { IfOk result (λ is. IsTrue is → AreClean D.Disk files.new.log files.new.db
        → BeginsWell (bytes_of size) (image_of D.Disk files.old)) }
    ensures log { OnlyReads D.Disk files.old.log files.new.log }
    ensures db { OnlyReads D.Disk files.old.db files.new.db }
{
    match probe_first_page(alloc, files, size) {
        Ok((first, reserved)) => Ok(first == b'S' && reserved != WITH_SUMS),
        Err(error) => Err(unread(error)),
    }
}
