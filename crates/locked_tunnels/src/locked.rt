//! What threads share of an end.

ghost use Rattle.std.specs.Prelude.{◌≡◌, IfOk};
ghost use Rattle.session_cells.specs.Tokens.{log_of, IsOf, count_of, Later};
ghost use Rattle.session_cells.specs.Logs.{AllEntered};
ghost use Rattle.session_cells.specs.Changes.{entries_of};

use crate::kept::KeptTunnel;
use crate::table::Tunnels;
use crate::unlocked::Unlocked;
use end_model::{Config, Role};
use session_cells::{CellSeen, Cells};
use std::alloc::Global;
use std::sync::Mutex;
use step_hub::Hub;
use wire_base::{Bytes, NoMemory};

/// A cell for each session id.
const CELLS: u32 = 65_536;

/// What threads share of an end: a cell for each session id, the table of its tunnels, each tunnel, and the hub, each but the cells
/// behind its lock, and what threads tell one another without a lock. The words that each control turn writes stand apart from what frames
/// read.
#[derive(Drop)]
pub struct Locked<H: Hub> {
    pub cells: Cells,
    pub(crate) tunnels: Box<Mutex<Tunnels>>,
    pub(crate) hub: Box<Mutex<H>>,
    pub(crate) unlocked: Box<Unlocked>,
    /// What the hub told its end when it was put behind its lock: it never tells anything else.
    pub(crate) config: Config,
    pub ghost all: { count_of cells ≡ 65536 },
}

fn boxed_table(alloc: Global, role: Role, lns: u32) -> Result<Box<Mutex<Tunnels>>, NoMemory> {
    let tunnels = Tunnels::new(alloc, role, lns)?;
    Ok(Box::new(alloc, Mutex::new(tunnels))?)
}

fn copy_config(alloc: Global, config: &Config) -> Result<Config, NoMemory>
    ensures { IfOk result (λ copy. copy ≡ config.now) }
{
    let secret = match &config.secret {
        None => None,
        Some(secret) => Some(Bytes::from_slice(alloc, secret.as_slice())?),
    };
    Ok(Config::new(
        config.number,
        config.address,
        config.lns,
        secret,
        config.hide,
    ))
}

impl<H: Hub> Locked<H> {
    /// An end of this kind without a tunnel, and a token of its cells, which are all unborn. `lns` is the address of a LAC's LNS, an
    /// IPv4 address as a number; 0 at an LNS. Where memory is wanting, the hub is given back.
    pub fn open(alloc: Global, role: Role, lns: u32, hub: H) -> Result<(Locked<H>, CellSeen), H>
        ensures { IfOk result (λ r. IsOf r.0.cells r.1) }
    {
        let Ok((cells, seen)) = Cells::open_cells(alloc, CELLS) else {
            return Err(hub);
        };
        let Ok(tunnels) = boxed_table(alloc, role, lns) else {
            return Err(hub);
        };
        let Ok(unlocked) = Box::new(alloc, Unlocked::new()) else {
            return Err(hub);
        };
        let Ok(config) = copy_config(alloc, hub.config()) else {
            return Err(hub);
        };
        match Box::new(alloc, Mutex::new(hub)) {
            Ok(hub) => Ok((
                Locked {
                    cells,
                    tunnels,
                    hub,
                    unlocked,
                    config,
                },
                seen,
            )),
            Err(failed) => Err(failed.value.into_inner()),
        }
    }

    /// Takes in a tunnel that was kept over a start, and makes its changes on the cells. Where memory is wanting, it is let go, and its
    /// changes are made all the same.
    pub fn keep(&mut self, seen: &mut CellSeen, kept: KeptTunnel) -> Result<(), NoMemory>
        requires { IsOf self.old.cells seen.old }
        ensures cells { self.new.cells ≡ self.old.cells }
        ensures later { Later self.old.cells seen.old seen.new }
        ensures entered { AllEntered (log_of seen.old) (entries_of kept.changes) (log_of seen.new) }
    {
        self.cells.enter_all(seen, kept.changes());
        let tunnels = self.tunnels.get_mut();
        tunnels.insert(kept)?;
        self.unlocked.lower(tunnels.take_due());
        Ok(())
    }

    /// The hub, once no other thread has what is shared. It takes no memory.
    pub fn into_hub(self) -> H {
        let Locked { hub, .. } = self;
        Box::into_inner(hub).into_inner()
    }
}
