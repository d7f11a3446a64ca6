ghost use Rattle.std.specs.Prelude.{◌<◌};
ghost use Rattle.session_cells.specs.Tokens.{IsOf, count_of};

use session_cells::*;
use session_looks::{CellChange, Look};
use std::test::*;
use std::thread::{Threads, join};

fn is_bound(look: Look) -> Option<(u16, u32)> {
    match look {
        Look::Bound { tunnel, peer } => Some((tunnel, peer)),
        _ => None,
    }
}

fn is_established(look: Look) -> Option<(u16, u32)> {
    match look {
        Look::Established { tunnel, peer } => Some((tunnel, peer)),
        _ => None,
    }
}

fn is_unborn(look: Look) -> bool {
    matches!(look, Look::Unborn)
}

fn is_dead(look: Look) -> bool {
    matches!(look, Look::Dead)
}

#[test]
fn one_cell_from_birth_to_death(rt: HostRuntime) -> Result<(), Fail> {
    let (cells, mut seen) = Cells::open_cells(rt.alloc(), 16)?;
    assert_eq!(rt; cells.count(), 16);
    assert_eq!(rt; cells.kill(&mut seen, 7), Killed::Unborn);
    assert_eq!(rt; cells.establish(&mut seen, 7), Err(NotBound { word: 0 }));
    assert_eq!(rt; cells.bind(&mut seen, 7, 3, 0x0a00_0001), Ok(()));
    assert!(rt; is_bound(cells.lookup(&mut seen, 7)) == Some((3, 0x0a00_0001)));
    // state 1 in the highest two bits, tunnel 3, and the peer 14 bits from the end
    let word = 0x4000_c280_0000_4000;
    assert_eq!(rt; cells.bind(&mut seen, 7, 4, 1), Err(Already { word }));
    assert_eq!(rt; cells.establish(&mut seen, 7), Ok(()));
    assert!(rt; is_established(cells.lookup(&mut seen, 7)) == Some((3, 0x0a00_0001)));
    let word = 0x8000_c280_0000_4000;
    assert_eq!(rt; cells.establish(&mut seen, 7), Err(NotBound { word }));
    let mut other = cells.seen_again(&seen);
    assert_eq!(rt; cells.kill(&mut other, 7), Killed::Dead);
    assert_eq!(rt; cells.kill(&mut seen, 7), Killed::Dead);
    assert!(rt; is_dead(cells.lookup(&mut seen, 7)));
    let word = 0xc000_0000_0000_0000;
    assert_eq!(rt; cells.bind(&mut seen, 7, 4, 1), Err(Already { word }));
    assert!(rt; is_unborn(cells.lookup(&mut seen, 8)));
    Ok(())
}

#[test]
fn the_changes_of_a_step(rt: HostRuntime) -> Result<(), Fail> {
    let (cells, mut seen) = Cells::open_cells(rt.alloc(), 65_536)?;
    cells.enter_all(
        &mut seen,
        &[
            CellChange::Bind {
                session: 9,
                tunnel: 2,
                peer: 0xc0a8_0002,
            },
            CellChange::Bind {
                session: 65_535,
                tunnel: 5,
                peer: 1,
            },
            CellChange::Establish { session: 9 },
            CellChange::Kill { session: 65_535 },
            // an id of a table that is no session
            CellChange::Kill { session: 65_545 },
        ],
    );
    assert!(rt; is_established(cells.lookup(&mut seen, 9)) == Some((2, 0xc0a8_0002)));
    assert!(rt; is_dead(cells.lookup(&mut seen, 65_535)));
    Ok(())
}

/// Two threads bind one cell.
fn contest<R: Threads + Sync>(
    rt: &R,
    cells: &Cells,
    mut one: CellSeen,
    mut two: CellSeen,
) -> (bool, bool)
    requires { IsOf cells.now one × IsOf cells.now two × (9 < count_of cells.now) }
{
    join(
        rt,
        move ||
            requires { IsOf cells.now one × (9 < count_of cells.now) }
        { cells.bind(&mut one, 9, 1, 1).is_ok() },
        move ||
            requires { IsOf cells.now two × (9 < count_of cells.now) }
        { cells.bind(&mut two, 9, 2, 2).is_ok() },
    )
}

#[test]
fn one_of_two_binds(rt: HostRuntime) -> Result<(), Fail> {
    let (cells, seen) = Cells::open_cells(rt.alloc(), 16)?;
    let other = cells.seen_again(&seen);
    let (one, two) = contest(&rt, &cells, seen, other);
    assert!(rt; one != two);
    Ok(())
}

/// One thread binds a cell, another kills it.
fn bind_and_kill<R: Threads + Sync>(
    rt: &R,
    cells: &Cells,
    mut one: CellSeen,
    mut two: CellSeen,
) -> (Result<(), Already>, Killed)
    requires { IsOf cells.now one × IsOf cells.now two × (9 < count_of cells.now) }
{
    join(
        rt,
        move ||
            requires { IsOf cells.now one × (9 < count_of cells.now) }
        { cells.bind(&mut one, 9, 1, 0x0a00_0001) },
        move ||
            requires { IsOf cells.now two × (9 < count_of cells.now) }
        { cells.kill(&mut two, 9) },
    )
}

#[test]
fn a_bind_races_a_kill(rt: HostRuntime) -> Result<(), Fail> {
    let (cells, mut seen) = Cells::open_cells(rt.alloc(), 16)?;
    let one = cells.seen_again(&seen);
    let two = cells.seen_again(&seen);
    let (bound, killed) = bind_and_kill(&rt, &cells, one, two);
    // the kill comes before the bind, which it leaves alone, or after it, and the cell is dead
    assert_eq!(rt; bound, Ok(()));
    let look = cells.lookup(&mut seen, 9);
    if killed == Killed::Dead {
        assert!(rt; is_dead(look));
    } else {
        assert_eq!(rt; killed, Killed::Unborn);
        assert!(rt; is_bound(look) == Some((1, 0x0a00_0001)));
        assert_eq!(rt; cells.kill(&mut seen, 9), Killed::Dead);
    }
    assert!(rt; is_dead(cells.lookup(&mut seen, 9)));
    Ok(())
}

#[test]
fn no_bind_that_races_a_kill_revives_a_cell(rt: HostRuntime) -> Result<(), Fail> {
    let (cells, mut seen) = Cells::open_cells(rt.alloc(), 16)?;
    assert_eq!(rt; cells.bind(&mut seen, 9, 5, 0x0a00_0007), Ok(()));
    let one = cells.seen_again(&seen);
    let two = cells.seen_again(&seen);
    let (bound, killed) = bind_and_kill(&rt, &cells, one, two);
    assert!(rt; bound.is_err());
    assert_eq!(rt; killed, Killed::Dead);
    assert!(rt; is_dead(cells.lookup(&mut seen, 9)));
    Ok(())
}

/// One thread establishes a cell, another kills it.
fn establish_and_kill<R: Threads + Sync>(
    rt: &R,
    cells: &Cells,
    mut one: CellSeen,
    mut two: CellSeen,
) -> (bool, Killed)
    requires { IsOf cells.now one × IsOf cells.now two × (9 < count_of cells.now) }
{
    join(
        rt,
        move ||
            requires { IsOf cells.now one × (9 < count_of cells.now) }
        { cells.establish(&mut one, 9).is_ok() },
        move ||
            requires { IsOf cells.now two × (9 < count_of cells.now) }
        { cells.kill(&mut two, 9) },
    )
}

#[test]
fn no_establishment_outlives_a_kill(rt: HostRuntime) -> Result<(), Fail> {
    let (cells, mut seen) = Cells::open_cells(rt.alloc(), 16)?;
    assert_eq!(rt; cells.bind(&mut seen, 9, 5, 0x0a00_0007), Ok(()));
    let one = cells.seen_again(&seen);
    let two = cells.seen_again(&seen);
    let (_, killed) = establish_and_kill(&rt, &cells, one, two);
    assert_eq!(rt; killed, Killed::Dead);
    assert!(rt; is_dead(cells.lookup(&mut seen, 9)));
    Ok(())
}
