//! Input files, read to their ends.

ghost use Rattle.std.specs.Prelude.{◌≡◌, [], IfOk, IfErr, OnOk, string_bytes};
ghost use Rattle.lvs_outside.specs.Loops.{ReadsRest};
ghost use Rattle.lvs_outside.specs.Store.{HasRoom, IsReading};
ghost use Rattle.lvs_run.specs.Inputs.{Got, IsOpened, Quiet, Refuses, stopped};
ghost use Rattle.lvs_run.specs.declared.input.Stop.TheVariants.{NoMemory};

use crate::status::Refusal;
use gds_layout::LayoutReader;
use lvs_outside::{Depot, Failed, LIMIT, ReadFault, read_rest};
use std::alloc::{AllocError, Global};

/// Why a run ends before it has anything to write.
#[derive(Debug, Drop)]
pub enum Stop {
    /// The words or an input are refused.
    Refused(Refusal),
    /// A call on the depot failed.
    Outside,
    /// No memory was left.
    NoMemory,
}

impl From<AllocError> for Stop {
    ghost from_gives = { λ _ e. e ≡ NoMemory };

    fn from(_: AllocError) -> Self {
        Stop::NoMemory
    }
}

// Opens the path's file.
fn open_input<D: Depot>(depot: &mut D, path: &String) -> Result<(), Stop>
    requires { HasRoom (D.state depot.old) }
    ensures quiet { Quiet (D.state depot.old) (D.state depot.new) }
    ensures opened { OnOk result (IsOpened (D.state depot.old) (D.state depot.new)
        (string_bytes path.now)) }
    ensures refused { IfErr result (λ why. Refuses (D.state depot.old) (D.state depot.new)
        (string_bytes path.now) (stopped why)) }
{
    match depot.open_read(path.as_str()) {
        Ok(true) => Ok(()),
        Ok(false) => {
            let path = path.clone()?;
            Err(Stop::Refused(Refusal::Absent(path)))
        }
        Err(Failed) => Err(Stop::Outside),
    }
}

/// The bytes of the path's file. Linear in them.
pub fn read_input<D: Depot>(alloc: Global, depot: &mut D, path: &String) -> Result<Vec<u8>, Stop>
    requires { HasRoom (D.state depot.old) }
    ensures quiet { Quiet (D.state depot.old) (D.state depot.new) }
    ensures got { IfOk result (λ bytes. Got (D.state depot.old) (D.state depot.new)
        (string_bytes path.now) bytes.items) }
    ensures refused { IfErr result (λ why. Refuses (D.state depot.old) (D.state depot.new)
        (string_bytes path.now) (stopped why)) }
{
    open_input(depot, path)?;
    let mut bytes = Vec::new(alloc);
    match read_rest(depot, &mut bytes) {
        Ok(()) => Ok(bytes),
        Err(ReadFault::Failed) => Err(Stop::Outside),
        Err(ReadFault::TooLong) => {
            let path = path.clone()?;
            Err(Stop::Refused(Refusal::TooLong(path)))
        }
        Err(ReadFault::NoMemory) => Err(Stop::NoMemory),
    }
}

// Feeds the file that is open for reading to a reader, to its end or until more than `LIMIT` bytes
// were read, in pieces of at most 65,536 bytes. The reader keeps its fault.
fn feed_rest<D: Depot>(
    alloc: Global,
    depot: &mut D,
    reader: &mut LayoutReader,
) -> Result<(), ReadFault>
    requires room { HasRoom (D.state depot.old) }
    requires open { IsReading (D.state depot.old).opened }
    requires fresh { reader.old.fed ≡ [] }
    ensures { ReadsRest (D.state depot.old) (D.state depot.new) reader.new.fed result }
{
    let mut buf = [0u8; 65536];
    let mut total = 0;
    while total <= LIMIT {
        let count = depot.read(&mut buf)?;
        if count == 0 {
            return Ok(());
        }
        let _told = reader.feed(alloc, &buf[..count]);
        total += count;
    }
    Err(ReadFault::TooLong)
}

/// Feeds the path's file to a reader, and keeps none of its bytes: to its end, or past the limit,
/// whatever the reader finds. Cost: the bytes, and what the reader does with them.
pub fn feed_input<D: Depot>(
    alloc: Global,
    depot: &mut D,
    path: &String,
    reader: &mut LayoutReader,
) -> Result<(), Stop>
    requires room { HasRoom (D.state depot.old) }
    requires fresh { reader.old.fed ≡ [] }
    ensures quiet { Quiet (D.state depot.old) (D.state depot.new) }
    ensures got { OnOk result (Got (D.state depot.old) (D.state depot.new) (string_bytes path.now)
        reader.new.fed) }
    ensures refused { IfErr result (λ why. Refuses (D.state depot.old) (D.state depot.new)
        (string_bytes path.now) (stopped why)) }
{
    open_input(depot, path)?;
    match feed_rest(alloc, depot, reader) {
        Ok(()) => Ok(()),
        Err(ReadFault::Failed) => Err(Stop::Outside),
        Err(ReadFault::TooLong) => {
            let path = path.clone()?;
            Err(Stop::Refused(Refusal::TooLong(path)))
        }
        Err(ReadFault::NoMemory) => Err(Stop::NoMemory),
    }
}
