//! One end's control channel (RFC 2661 section 5.8 and appendix A): the letters that it gives to the other end, over a send
//! window, and the number of the message that it expects of the other end.
#![tactic(auto)]

ghost use Rattle.control_channel.specs.History.{EachCallIsAStep, KeepsTheWhole, TakenCountsOn};
ghost use Rattle.control_channel.specs.Parts.{BeginsAsParts, EachCallActsOnParts, LendsByPlace};

mod channel;
mod numbers;

pub use channel::Channel;
pub use numbers::ChannelNumbers;
pub use recv_window::Class;
pub use send_window::{LIMIT, Letters, PutError, Tick};

/// Laws: each call is a step of the channel with all its letters and with numbers that have no end, wherever a message's
/// numbers haven't outlived half the space. After every history of such calls the channel keeps the rest of it: what is
/// acknowledged was let go before, a letter's number is its place in the list of letters given, and what is taken counts
/// on by one.
pub fn keeps_the_whole()
    ensures step { EachCallIsAStep }
    ensures run { KeepsTheWhole }
    ensures taken { TakenCountsOn }
{}

/// A law: a channel is its numbers with its letters. Each call changes the numbers as the call of `ChannelNumbers` does, and
/// these tell its answer; it changes the letters as a call of `Letters` does, dropping as many of the first as the numbers
/// count as acknowledged; and the letter with a number stands at the number's place.
pub fn is_numbers_with_letters()
    ensures begins { BeginsAsParts }
    ensures calls { EachCallActsOnParts }
    ensures lends { LendsByPlace }
{}
