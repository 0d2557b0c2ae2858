//! Laws about the calls of the program over one file.
ghost use Rattle.cli_call.specs.Common.{own_files, whole_files, EndsLeadOn, LiesInOrder, ends};
ghost use Rattle.cli_call.specs.Ended.{LeavesInputs, LeavesServed};
ghost use Rattle.cli_call.specs.OneFile.{CallsLead};

use cli_run::{Inputs, left_law};
use desk_server::served_law;
use sqlite::{Alter, Connection, FileStore};
use sqlite_disk::{Disk, Files};
use sqlite_trees::store::Store;
use station_core::laws::retry_law;
use station_core::{ByteOut, Keeper};
use station_files::{
    FileBacked, OwnTrees, files_lead_on, own_files_lead_on, own_files_lie_in_order,
};
use station_schema::files_lie_in_order;
use station_tables::{Station, next_call_law};
use std::io::Read;

/// [`left_law`] of a station over any store. A station over files is too long to be compared with
/// the trait as one.
fn left_over_store<S: Alter, I: Inputs + Read, W: ByteOut, E: ByteOut>()
    ensures { LeavesInputs ⟦<Station<S> as Keeper>⟧.keeping
        (ends I.remaining I.given I.turned W.taken E.taken) }
{
    left_law::<Station<S>, I, W, E>();
}

/// [`served_law`] of a station over any store.
fn served_over_store<S: Alter>()
    ensures { LeavesServed ⟦<Station<S> as Keeper>⟧.keeping }
{
    served_law::<Station<S>>();
}

/// The law over calls for any kind of files in which an opening finds what the connection before it
/// could leave.
fn calls_law<F, L, S: Alter, I: Inputs + Read, W: ByteOut, E: ByteOut>()
where
    Connection<S>: FileBacked<F, L>,
    ensures { EndsLeadOn S.Store ⟦<Connection<S> as FileBacked<F, L>>⟧.backing
        → LiesInOrder S.Store → CallsLead ⟦<Connection<S> as FileBacked<F, L>>⟧.backing
        ⟦<Station<S> as Keeper>⟧.keeping (ends I.remaining I.given I.turned W.taken E.taken) }
{
    left_over_store::<S, I, W, E>();
    served_over_store::<S>();
    next_call_law::<S>();
    retry_law();
}

/// After any number of calls over one file, of commands and of services, and including vain ones,
/// each of which finds in the files what the one before it may have left there, the last call's
/// station has the state after every input that was answered and, for each call whose store failed,
/// perhaps one more. There the pieces and the tenths are conserved, and each accepted input acted
/// once. The first call may be an upgrade, however it ended, or an `init` that failed.
pub fn calls_over_file_law<D: Disk + Drop, I: Inputs + Read, W: ByteOut, E: ByteOut>()
    ensures { CallsLead (whole_files D.Disk) ⟦<Station<FileStore<D>> as Keeper>⟧.keeping
        (ends I.remaining I.given I.turned W.taken E.taken) }
{
    calls_law::<Files<D>, FileStore<D>, FileStore<D>, I, W, E>();
    files_lead_on::<D>();
    files_lie_in_order::<D>();
}

/// The same over a file of which the trees of a list are shown, if the list names the trees of a
/// station.
pub fn calls_beside_law<D: Disk + Drop, I: Inputs + Read, W: ByteOut, E: ByteOut>()
    ensures { CallsLead (own_files D.Disk ⟦<OwnTrees<FileStore<D>> as Store>⟧)
        ⟦<Station<OwnTrees<FileStore<D>>> as Keeper>⟧.keeping
        (ends I.remaining I.given I.turned W.taken E.taken) }
{
    calls_law::<Files<D>, FileStore<D>, OwnTrees<FileStore<D>>, I, W, E>();
    own_files_lead_on::<D>();
    own_files_lie_in_order::<D>();
}
