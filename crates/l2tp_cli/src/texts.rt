//! The texts that the program writes beside a report.

ghost use Rattle.std.specs.Prelude.{◌≡◌, ◌++◌, IfOk, codes};
ghost use Rattle.std.specs.Fmt.{decimal};
ghost use Rattle.l2tp_cli.specs.Texts.{bad_line_text, too_long_text};

use std::alloc::Global;
use wire_base::{Bytes, NoMemory};

/// How the program is used.
pub const HELP: &[u8] = b"\
l2tp: both ends of L2TP version 2 tunnels (RFC 2661), a LAC and an LNS

usage:
  l2tp replay            runs the schedule on standard input and writes its report to standard output
  l2tp make SEED COUNT   draws a schedule from a seed, runs it and writes what it comes to
  l2tp node OPTIONS      runs one end over UDP; l2tp node --help tells the options
  l2tp pool OPTIONS      runs one end over UDP with workers; l2tp pool --help tells the options
  l2tp --help            writes this text
  l2tp --version         writes the version

A schedule is a list of lines, with one space between words:
  # TEXT                a remark
  lns N SECRET          node N is an LNS
  lac N M SECRET MODE   node N is a LAC, whose LNS is node M
  open N                node N, a LAC, opens a tunnel to its LNS
  close N T             an operator closes tunnel T of node N, with its calls
  ring N K              a subscriber calls at port K of node N, a LAC
  frame N HEX           an Ethernet frame of a PPPoE host comes to node N, a LAC
  data N S HEX          the subscriber of call S of node N, a LAC, sends a PPP frame
  down N S HEX          the network sends a PPP frame down call S of node N, an LNS
  hang N S              the subscriber of call S of node N, a LAC, leaves
  drop N S              an operator closes call S of node N
  deliver P             packet P of the report reaches the node that it was sent to
  load N P              a look at the session of data packet P, which is for node N: its frame is held, or the packet is dropped
  hand N H              held frame H of node N is handed up, whatever has happened since
  tick N MS             the clock of node N goes on by MS milliseconds, and what is due is done
  crash N               node N crashes: all but what it committed is lost
  stop N C J KEEP       node N is to stop inside its C-th commit from now on, at call J of its disk
  start N               node N, which is down, starts again over what it committed, and attempts to recover its tunnels
N and M are 1 to 255, K, S and T 1 to 65535, P and H 1 to 4294967295, MS 0 to 86400000, without leading zeros. HEX is a frame
from its protocol field on, 2 to 1494 bytes as hex digits in lower case, and in a frame line an Ethernet frame from its
destination address on, 1 to 2048 bytes. C is 1 to 255 and J 1 to 4; KEEP is kept, with a J of 3 or 4, where the record that is
committed there stays, or lost. SECRET is the secret that both ends of a tunnel share, 1 to 64 bytes as hex
digits, or - where there is none. MODE is plain, or hide where there is a secret: then the numbers of the callers are
hidden by it. A schedule has at most 1048576 lines and 67108864 bytes.
M of a lac line may be declared later, or never: then what is sent to it can't be delivered.

An LNS ends LCP (RFC 1661) in each call: as the call is connected it asks for an MRU and a magic number. LCP's packets are
frames with protocol c021. Until LCP was open once in a call, other frames of it are dropped; an LCP end that is finished
ends its call.

A line that doesn't fit ends the run, which says why:
  node     that node isn't declared, or is of the other kind
  twice    that node was declared before
  tunnel   that node has no such tunnel, or has closed it
  call     that node has no such call
  packet   no such packet was sent, or no data packet to that node
  hand     that node holds no such frame
  down     that node is down
  up       that node is up, so it can't start

A packet may be delivered at any time, and as often as wanted. One that has outlived half of the numbers of its channel
ends the run with status 4: its number is more than 32767 below what the addressee took, or what was acknowledged to it.
So does a control message that was sent in its tunnel in an earlier epoch than the addressee is in: a tunnel is in epoch 0,
and each answer to an attempt at its recovery makes the next one.

A report has lines for what is done in line L of the schedule, and ends with what each node holds:
  L send P N M HEX                    packet P goes from node N to node M
  L up N S B SIDE HEX                 node N hands up a frame in its call S, the B-th of all calls, to the
                                      subscriber (sub), to the network (net), or to the call's LCP end (lcp)
  L held N H                          node N holds frame H, until it is handed up or the node crashes
  L gone N S                          call S of node N ended
  L frame N HEX                       node N sends an Ethernet frame to a PPPoE host
  L drop N WHY                        node N ignores what came
  L cause N WHY                       node N refuses what was asked for, or ends a call, or closes a tunnel
  L stopped N                         node N stopped inside a commit, and is down
  end N down                          node N is down
  end N tunnel T M R STATE E MODE complete
                                      node N has tunnel T to node M, which calls it R, in epoch E; it is current, restored
                                      (node N was down, and it isn't recovered yet) or frozen (node M was down)
  end N call T S R STATE B            in tunnel T it has call S, which the other end calls R, the B-th of all calls
  agree N T M U C                     both ends of a tunnel took all that they were sent, and hold C established calls

make takes a SEED of 0 to 18446744073709551615 and a COUNT of 1 to 50000, without leading zeros. It draws COUNT lines for an
LNS and a LAC that has opened a tunnel; what doesn't fit becomes a remark. It writes the seed, and how many lines there are,
packets were sent, frames were handed up, calls were born, and tunnels agree at the end. The same words give the same six lines.

status: 0 done, 1 usage, 2 bad line, 3 line that does not fit, 4 packet that is too old, 5 read fault, 6 write fault,
        7 too long, 13 checkpoint that is full, 20 no memory
";

/// The version.
pub const VERSION: &[u8] = b"l2tp 0.1.0\n";

/// The words are no command.
pub const USAGE: &[u8] = b"usage: l2tp replay\n";

/// The words aren't those of `make`.
pub const MAKE_USAGE: &[u8] = b"usage: l2tp make SEED COUNT\n";

/// The source failed.
pub const READ_FAULT: &[u8] = b"read fault\n";

/// A text before a number, in a line.
fn numbered(alloc: Global, front: &[u8], number: u64) -> Result<Bytes, NoMemory>
    ensures { IfOk result (λ text. text ≡ front.now ++ decimal number ++ codes "\n") }
{
    let digits = number.to_string(alloc)?;
    let mut text = Bytes::from_slice(alloc, front)?;
    text.push_slice(digits.as_bytes())?;
    text.push_slice(b"\n")?;
    Ok(text)
}

/// A line that is outside the grammar.
pub fn bad_line_text(alloc: Global, line: u64) -> Result<Bytes, NoMemory>
    ensures { IfOk result (λ text. text ≡ bad_line_text line) }
{
    numbered(alloc, b"bad line ", line)
}

/// A text that passes a limit, with as many lines as are begun there.
pub fn too_long_text(alloc: Global, lines: u64) -> Result<Bytes, NoMemory>
    ensures { IfOk result (λ text. text ≡ too_long_text lines) }
{
    numbered(alloc, b"too long: ", lines)
}
