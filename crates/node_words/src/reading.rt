//! The plan that words ask for.

ghost use Rattle.std.specs.Prelude.{◌≡◌, IfOk, IfErr, IsErrOf, MatchOption, Some, None, map, option_map, string_bytes};
ghost use Rattle.clap.specs.Matches.{found_of};
ghost use Rattle.clap.specs.Words.{rows_of};
ghost use Rattle.clap.specs.Walk.{first_of};
ghost use Rattle.node_words.specs.Plans.{is_given, identity_of, numbers_of, said, hiding_of, texts_of, planned, plan_by, command_of, plan_of};

use crate::command::parse;
use crate::plan::{Plan, PlanError};
use clap::ArgMatches;
use option_values::{
    read_address, read_number, read_number_or, read_peer, read_role, read_secret, read_workers,
};
use std::alloc::{AllocError, Global};
use wire_base::{Bytes, NoMemory};

/// The most turns.
const MOST_TURNS: u64 = 9_223_372_036_854_775_807;

/// Which end, which number, and its addresses.
#[derive(Drop)]
struct Identity {
    lac: bool,
    number: u8,
    listen: u32,
    peer: Option<u32>,
}

/// How many turns, which port, and how many workers.
#[derive(Drop)]
struct Numbers {
    turns: u64,
    port: u16,
    workers: u32,
}

/// Texts and flags.
#[derive(Drop)]
struct Texts<'a> {
    store: &'a str,
    secret: Option<&'a str>,
    hide: bool,
    opens: bool,
    ether: Option<&'a str>,
    uplink: Option<&'a str>,
    seed: Option<&'a str>,
}

/// The value of an option, where it is given.
#[tactic(auto, using(crate::proofs::Rows::value_by_rows))]
fn value<'a>(matches: &ArgMatches<'a>, name: &str) -> Option<&'a str>
    ensures { option_map (λ w. w.now) result ≡ first_of name.now (rows_of (found_of matches.now)) }
{
    matches.get_str(name)
}

/// Whether a flag is given.
fn flag(matches: &ArgMatches<'_>, name: &str) -> bool
    ensures { result ≡ is_given (first_of name.now (rows_of (found_of matches.now))) }
{
    match value(matches, name) {
        None => false,
        Some(word) => word == "true",
    }
}

#[tactic(auto, unfolding(crate::specs::Plans::identity_of))]
fn read_identity(matches: &ArgMatches<'_>) -> Option<Identity>
    ensures { result ≡ identity_of (rows_of (found_of matches.now)) }
{
    let lac = read_role(value(matches, "role")?)?;
    let number = read_number(value(matches, "number")?, 1, 255)?;
    let listen = read_address(value(matches, "listen")?)?;
    let peer = read_peer(lac, value(matches, "peer"))?;
    Some(Identity {
        lac,
        number: number as u8,
        listen,
        peer,
    })
}

#[tactic(auto, unfolding(crate::specs::Plans::numbers_of))]
fn read_numbers(pool: bool, matches: &ArgMatches<'_>) -> Option<Numbers>
    ensures { result ≡ numbers_of pool (rows_of (found_of matches.now)) }
{
    let turns = read_number(value(matches, "turns")?, 0, MOST_TURNS)?;
    let port = read_number_or(value(matches, "port"), 1701, 1, 65535)?;
    let workers = read_workers(pool, value(matches, "workers"))?;
    Some(Numbers {
        turns,
        port: port as u16,
        workers: workers as u32,
    })
}

/// The secret, and whether calling numbers are hidden by it.
#[tactic(auto, unfolding(crate::specs::Plans::hiding_of))]
fn read_hiding<'a>(matches: &ArgMatches<'a>) -> Option<(Option<&'a str>, bool)>
    ensures { MatchOption result (hiding_of (rows_of (found_of matches.now)) ≡ None) (λ h. hiding_of (rows_of (found_of matches.now)) ≡ Some (option_map (λ w. w.now) h.0, h.1)) }
{
    let secret = read_secret(value(matches, "secret"))?;
    let hide = flag(matches, "hide");
    if hide && secret.is_none() {
        return None;
    }
    Some((secret, hide))
}

#[tactic(auto, unfolding(crate::specs::Plans::texts_of))]
fn read_texts<'a>(matches: &ArgMatches<'a>) -> Option<Texts<'a>>
    ensures { MatchOption result (texts_of (rows_of (found_of matches.now)) ≡ None) (λ t. texts_of (rows_of (found_of matches.now)) ≡ Some (said t)) }
{
    let store = value(matches, "store")?;
    let (secret, hide) = read_hiding(matches)?;
    Some(Texts {
        store,
        secret,
        hide,
        opens: flag(matches, "open"),
        ether: value(matches, "ether"),
        uplink: value(matches, "uplink"),
        seed: value(matches, "seed"),
    })
}

/// A copy of a text, where there is one.
fn copy(alloc: Global, word: Option<&str>) -> Result<Option<String>, AllocError>
    ensures { IfOk result (λ text. option_map string_bytes text ≡ option_map (λ w. w.now) word.entry) }
{
    match word {
        None => Ok(None),
        Some(word) => Ok(Some(String::from_str(alloc, word)?)),
    }
}

/// A copy of a secret, where there is one.
fn copy_secret(alloc: Global, word: Option<&str>) -> Result<Option<Bytes>, NoMemory>
    ensures { IfOk result (λ secret. secret ≡ option_map (λ w. w.now) word.entry) }
{
    match word {
        None => Ok(None),
        Some(word) => Ok(Some(Bytes::from_slice(alloc, word.as_bytes())?)),
    }
}

/// A plan of these parts.
fn make(
    alloc: Global,
    identity: &Identity,
    numbers: &Numbers,
    texts: &Texts<'_>,
) -> Result<Plan, PlanError>
    ensures made { IfOk result (λ p. planned p ≡ record { identity = identity.now; numbers = numbers.now; texts = said texts.now }) }
    ensures memory { IfErr result (λ e. e ≡ PlanError.NoMemory) }
{
    Ok(Plan {
        lac: identity.lac,
        number: identity.number,
        listen: identity.listen,
        peer: identity.peer,
        store: String::from_str(alloc, texts.store)?,
        turns: numbers.turns,
        secret: copy_secret(alloc, texts.secret)?,
        hide: texts.hide,
        opens: texts.opens,
        port: numbers.port,
        ether: copy(alloc, texts.ether)?,
        uplink: copy(alloc, texts.uplink)?,
        seed: copy(alloc, texts.seed)?,
        workers: numbers.workers,
    })
}

/// Whether the first word is `pool`, where it is that or `node`.
#[tactic(auto, unfolding(crate::specs::Plans::command_of))]
fn read_command(words: &[String]) -> Option<bool>
    ensures { result ≡ command_of (map string_bytes words.now) }
{
    let first = words.first()?.as_str();
    if first == "node" {
        Some(false)
    } else if first == "pool" {
        Some(true)
    } else {
        None
    }
}

/// The plan of what was found for each option.
#[tactic(auto, unfolding(crate::specs::Plans::plan_by))]
fn read_found(alloc: Global, pool: bool, matches: &ArgMatches<'_>) -> Result<Plan, PlanError>
    ensures plan { IfOk result (λ p. plan_by pool (rows_of (found_of matches.now)) ≡ Some (planned p)) }
    ensures usage { IsErrOf result PlanError.Usage → plan_by pool (rows_of (found_of matches.now)) ≡ None }
{
    let identity = read_identity(matches).ok_or(PlanError::Usage)?;
    let numbers = read_numbers(pool, matches).ok_or(PlanError::Usage)?;
    let texts = read_texts(matches).ok_or(PlanError::Usage)?;
    make(alloc, &identity, &numbers, &texts)
}

/// Reads the words of `l2tp node` and `l2tp pool`, of which the first is the command. `Usage` comes exactly where they are
/// no plan: the command is another, the parse of options and flags has a fault, a value isn't in form, an option that is
/// needed is wanting, a LAC has no peer, numbers are to be hidden without a secret, or `node` is given workers.
#[tactic(auto, unfolding(crate::specs::Plans::plan_of))]
pub fn read_plan(alloc: Global, words: &[String]) -> Result<Plan, PlanError>
    ensures plan { IfOk result (λ p. plan_of (map string_bytes words.now) ≡ Some (planned p)) }
    ensures usage { IsErrOf result PlanError.Usage → plan_of (map string_bytes words.now) ≡ None }
{
    let Some(pool) = read_command(words) else {
        return Err(PlanError::Usage);
    };
    let matches = match parse(alloc, words) {
        Ok(matches) => matches,
        Err(error) => return Err(error),
    };
    read_found(alloc, pool, &matches)
}
