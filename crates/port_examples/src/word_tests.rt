use crate::judging::{none_is_wrong, string_of};
use block_source::{next_block, seeded};
use node_words::{Plan, PlanError, asks_for_help, read_plan};
use std::alloc::{AllocError, Global};

fn push_words(alloc: Global, words: &mut Vec<String>, line: &str) -> Result<(), AllocError> {
    for word in line.split(' ') {
        words.push(String::from_str(alloc, word)?)?;
    }
    Ok(())
}

/// The words of a line, which are parted by a space each, as far as there is memory.
fn words_of(alloc: Global, line: &str) -> Vec<String> {
    let mut words: Vec<String> = Vec::new(alloc);
    let _pushed = push_words(alloc, &mut words, line);
    words
}

/// The plan of a line.
fn plan(alloc: Global, line: &str) -> Result<Plan, PlanError> {
    let words = words_of(alloc, line);
    read_plan(alloc, words.as_slice())
}

fn is_plan(alloc: Global, line: &str) -> bool {
    plan(alloc, line).is_ok()
}

/// Whether a LAC's words with one option more are taken.
fn takes(alloc: Global, option: &str) -> bool {
    let mut line = string_of(
        alloc,
        "pool --role lac --number 1 --listen 127.0.0.1 --peer 127.0.0.2 --store s --turns 1",
    );
    line.push_str(option).is_ok() && is_plan(alloc, line.as_str())
}

/// What is told by the words.
fn has_what_is_told(plan: &Plan) -> bool {
    let is_role = plan.lac && plan.opens && !plan.hide;
    let is_number = plan.number == 1 && plan.turns == 1;
    let is_address = plan.listen == 0x7f00_0001 && plan.peer == Some(0x7f00_0002);
    is_role && is_number && is_address && plan.store.as_str() == "s"
}

/// What isn't told.
fn has_no_more(plan: &Plan) -> bool {
    let is_usual = plan.port == 1701 && plan.workers == 4;
    let has_paths = plan.ether.is_some() || plan.uplink.is_some() || plan.seed.is_some();
    is_usual && !has_paths && plan.secret.is_none()
}

fn is_read(alloc: Global) -> bool {
    let line =
        "node --role lac --number 1 --listen 127.0.0.1 --peer 127.0.0.2 --store s --turns 1 --open";
    match plan(alloc, line) {
        Ok(plan) => has_what_is_told(&plan) && has_no_more(&plan),
        Err(_) => false,
    }
}

#[test]
fn a_plan_has_what_the_words_say(rt: HostRuntime) {
    assert!(rt; is_read(rt.alloc()));
}

const TAKEN: [&str; 7] = [
    "",
    " --workers 64",
    " --port=1",
    " --secret=-x --hide",
    " --port 65535",
    " --open --ether e --uplink u --seed r",
    " --",
];

const REFUSED: [&str; 14] = [
    " --secret -x",
    " --workers 65",
    " --workers 0",
    " --port 0",
    " --port 65536",
    " --port +1",
    " --port 01",
    " --port 1 --port 2",
    " --hide",
    " --por 1",
    " --port",
    " --secret=",
    " stray",
    " --help",
];

/// The first of the options that isn't taken or refused as told.
fn first_other(alloc: Global, options: &[&'static str], taken: bool) -> Option<&'static str> {
    for option in options {
        if takes(alloc, option) != taken {
            return Some(*option);
        }
    }
    None
}

#[test]
fn options_are_taken_or_refused(rt: HostRuntime) {
    none_is_wrong(&rt, first_other(rt.alloc(), &TAKEN, true));
    none_is_wrong(&rt, first_other(rt.alloc(), &REFUSED, false));
}

const NO_PLANS: [&str; 11] = [
    "",
    "node",
    "other --role lns --number 1 --listen 127.0.0.1 --store s --turns 1",
    "node --role lac --number 1 --listen 127.0.0.1 --store s --turns 1",
    "node --role lns --number 256 --listen 127.0.0.1 --store s --turns 1",
    "node --role lns --number 1 --listen 127.0.0.01 --store s --turns 1",
    "node --role lns --number 1 --listen +127.0.0.1 --store s --turns 1",
    "node --role lns --number 1 --listen 127.0.0 --store s --turns 1",
    "node --role lns --number 1 --listen 127.0.0.1 --turns 1",
    "node --role lns --number 1 --listen 127.0.0.1 --store s --turns 9223372036854775808",
    "node --role lns --number 1 --listen 127.0.0.1 --store s --turns 1 --workers 4",
];

fn first_plan(alloc: Global) -> Option<&'static str> {
    for line in &NO_PLANS {
        if is_plan(alloc, line) {
            return Some(*line);
        }
    }
    None
}

#[test]
fn lines_that_are_no_plan(rt: HostRuntime) {
    let alloc = rt.alloc();
    none_is_wrong(&rt, first_plan(alloc));
    let lns =
        "node --role lns --number 255 --listen 127.0.0.1 --store s --turns 9223372036854775807";
    assert!(rt; is_plan(alloc, lns));
    let asking = words_of(alloc, "node --help");
    assert!(rt; asks_for_help(asking.as_slice()));
}

/// The key stream of ChaCha20 at a key of zeros.
const BLOCKS: [[u8; 16]; 2] = [
    [
        0x76, 0xb8, 0xe0, 0xad, 0xa0, 0xf1, 0x3d, 0x90, 0x40, 0x5d, 0x6a, 0xe5, 0x53, 0x86, 0xbd,
        0x28,
    ],
    [
        0xbd, 0xd2, 0x19, 0xb8, 0xa0, 0x8d, 0xed, 0x1a, 0xa8, 0x36, 0xef, 0xcc, 0x8b, 0x77, 0x0d,
        0xc7,
    ],
];

#[test]
fn blocks_are_the_stream_of_the_seed(rt: HostRuntime) {
    let mut rng = seeded([0u8; 32]);
    let blocks = [next_block(&mut rng), next_block(&mut rng)];
    assert!(rt; blocks == BLOCKS);
}
