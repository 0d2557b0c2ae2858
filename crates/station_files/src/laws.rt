//! Laws about stores in files whose trees are read by a list, or only partly shown.
ghost use Rattle.std.specs.Prelude.{true, false};
ghost use Rattle.sqlite_std_file.specs.File.{IsFresh};
ghost use Rattle.station_files.specs.Common.{LiesInOrder};
ghost use Rattle.station_files.specs.Backing.{own_files, whole_files, EndsLeadOn};
ghost use Rattle.station_files.specs.Listed.{LeaveByList};
ghost use Rattle.station_files.specs.Opened.{AreSettled, CallsSpareOthers, LeaveOwn};
ghost use Rattle.station_files.specs.Ways.{OpensFind};

use crate::own_trees::OwnTrees;
use sqlite::FileStore;
use sqlite_disk::{Disk, Start};
use sqlite_std_file::FileFrom;
use sqlite_trees::store::Store;
use station_schema::files_lie_in_order;

/// Each crash state of a store's files holds, read by the list of their trees, a database that the
/// store may leave.
pub fn files_leave_by_list<D: Disk>()
    ensures { LeaveByList D.Disk }
{}

/// Each crash state of a store's files holds, read by the list for the trees with some numbers, a
/// database that the store may leave in them.
pub fn files_leave_own<D: Disk>()
    ensures { LeaveOwn D.Disk }
{}

/// The next opening finds in files what the connection before it could leave there.
pub fn files_lead_on<D: Disk>()
    ensures { EndsLeadOn ⟦<FileStore<D> as Store>⟧ (whole_files D.Disk) }
{}

/// The same for files of which the trees of a list are shown.
pub fn own_files_lead_on<D: Disk>()
    ensures { EndsLeadOn ⟦<OwnTrees<FileStore<D>> as Store>⟧
        (own_files D.Disk ⟦<OwnTrees<FileStore<D>> as Store>⟧) }
{}

/// A crash leaves the two files of a path, which were just opened, as they are read.
pub fn new_files_are_settled<S: Start>()
    ensures { (files : _) → IsFresh true files.log → IsFresh false files.db
        → AreSettled ⟦<FileFrom<S> as Disk>⟧ files }
{}

/// What `open_station` shows of files that were just opened is what the calls over one file begin
/// with, also behind a first try that refused them.
pub fn openings_find<D: Disk>()
    ensures { OpensFind {g = D.Disk} ⟦<OwnTrees<FileStore<D>> as Store>⟧ }
{}

/// The rows of tables in files are in order, on every disk, if only some trees are shown.
pub fn own_files_lie_in_order<D: Disk>()
    ensures { LiesInOrder ⟦<OwnTrees<FileStore<D>> as Store>⟧ }
{
    files_lie_in_order::<D>();
}

/// Any calls of a store that shows some trees of files leave the trees of other programs as they
/// were at its opening, after a crash too.
pub fn own_trees_spare_others<D: Disk>()
    ensures { CallsSpareOthers D.Disk ⟦<OwnTrees<FileStore<D>> as Store>⟧ }
{}
