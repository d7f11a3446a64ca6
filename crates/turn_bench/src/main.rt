//! The program `turn_bench`: so many turns over a UDP socket and two Unix stream sockets, of an end that sends each datagram
//! back. It is there to be measured: by `bench_turns`.
//!
//!   turn_bench LISTEN PORT ETHER UPLINK TURNS REST
//!   turn_bench --version
//!
//! LISTEN is an IPv4 address; ETHER and UPLINK are paths, `-` where there is no such port. REST is for how many milliseconds a turn
//! may rest where nothing comes; at 0 it never does.
#![tactic(auto)]

mod measure;

use crate::measure::{Measure, echo_turns, read_measure};
use port_events::TurnFault;
use real_ports::{RestingClock, StdClock, UdpLink, Watch, Watched};
use std::alloc::Global;
use std::env;
use std::net::Net;
use std::process::ExitCode;
use stream_ports::{UnixEther, UnixUplink};
use wire_base::NoMemory;

/// A path, where the word is one.
fn path_of(alloc: Global, word: &str) -> Result<Option<String>, NoMemory> {
    if word == "-" {
        return Ok(None);
    }
    Ok(Some(String::from_str(alloc, word)?))
}

/// The Ethernet port of a word.
fn ether_of<'a, R: Net + Drop>(
    alloc: Global,
    system: R,
    watch: &'a Watch,
    word: &str,
) -> Result<Option<Watched<'a, UnixEther<R>>>, NoMemory> {
    let Some(path) = path_of(alloc, word)? else {
        return Ok(None);
    };
    let port = UnixEther::new(alloc, system, path)?;
    Ok(Some(watch.ether(port)))
}

/// The uplink of a word.
fn uplink_of<'a, R: Net + Drop>(
    alloc: Global,
    system: R,
    watch: &'a Watch,
    word: &str,
) -> Result<Option<Watched<'a, UnixUplink<R>>>, NoMemory> {
    let Some(path) = path_of(alloc, word)? else {
        return Ok(None);
    };
    let port = UnixUplink::new(alloc, system, path)?;
    Ok(Some(watch.uplink(port)))
}

/// Makes the turns over the ports of the words.
fn run(
    rt: &HostRuntime,
    measure: Measure,
    ether: &str,
    uplink: &str,
) -> Result<(), TurnFault<NoMemory>> {
    let alloc = rt.alloc();
    let watch = Watch::new();
    let mut link = watch.link(UdpLink::new(rt, measure.listen, measure.port));
    let Ok(mut ether) = ether_of(alloc, rt, &watch, ether) else {
        return Err(TurnFault::NoMemory);
    };
    let Ok(mut up) = uplink_of(alloc, rt, &watch, uplink) else {
        return Err(TurnFault::NoMemory);
    };
    let mut clock = StdClock::new(rt);
    if measure.rest == 0 {
        return echo_turns(
            alloc,
            &mut link,
            &mut ether,
            &mut up,
            &mut clock,
            measure.turns,
        );
    }
    let mut clock = RestingClock::new(clock, &watch, i32::from(measure.rest));
    echo_turns(
        alloc,
        &mut link,
        &mut ether,
        &mut up,
        &mut clock,
        measure.turns,
    )
}

/// Writes how many turns were made, or the version, and gives the status.
fn tell(rt: &HostRuntime, turns: Option<u64>) -> ExitCode {
    let told = match turns {
        Some(turns) => println!(rt; "turns {turns}"),
        None => println!(rt; "turn_bench 0.1.0"),
    };
    match told {
        Ok(()) => ExitCode::SUCCESS,
        Err(_) => ExitCode::from(6),
    }
}

/// The version, where it is what the words ask for.
fn version(rt: &HostRuntime, words: &[String]) -> ExitCode {
    match words {
        [_, word] if word.as_str() == "--version" => tell(rt, None),
        _ => ExitCode::from(1),
    }
}

fn main(rt: HostRuntime) -> ExitCode {
    let Ok(words) = env::args(&rt) else {
        return ExitCode::from(1);
    };
    let Ok(words) = words.collect::<Vec<String>>(rt.alloc()) else {
        return ExitCode::from(20);
    };
    let [_, listen, port, ether, uplink, turns, rest] = words.as_slice() else {
        return version(&rt, words.as_slice());
    };
    let Some(measure) = read_measure(
        listen.as_str(),
        port.as_str(),
        turns.as_str(),
        rest.as_str(),
    ) else {
        return ExitCode::from(1);
    };
    match run(&rt, measure, ether.as_str(), uplink.as_str()) {
        Ok(()) => tell(&rt, Some(measure.turns)),
        Err(TurnFault::LinkFault) => ExitCode::from(10),
        Err(TurnFault::EtherFault) => ExitCode::from(11),
        Err(TurnFault::UplinkFault) => ExitCode::from(12),
        Err(TurnFault::NoMemory | TurnFault::Stopped { .. }) => ExitCode::from(20),
    }
}
