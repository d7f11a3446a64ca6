//! Words that ask for help in place of a run.

ghost use Rattle.std.specs.Prelude.{◌≡◌, codes};
ghost use Rattle.node_words.specs.Helps.{has_word, node_help_text, pool_help_text};

const NODE_HELP: &[u8] = b"\
Runs an L2TP end over UDP.

usage: l2tp node --role lac|lns --number N --listen ADDRESS --store PATH --turns N [OPTION ..]

  --role lac|lns     which end it is
  --number N         its number, 1 to 255
  --listen ADDRESS   the IPv4 address that it listens on, as 127.0.0.1
  --peer ADDRESS     the IPv4 address of its LNS; a LAC needs it
  --store PATH       the file of its checkpoint
  --turns N          how many turns it makes, 0 to 9223372036854775807
  --secret TEXT      the secret of its tunnels, 1 to 64 bytes
  --hide             hides calling numbers; needs --secret
  --open             opens a tunnel before its first turn
  --port N           the UDP port of all ends, 1 to 65535 (default 1701)
  --ether PATH       the Unix socket of its Ethernet port
  --uplink PATH      the Unix socket of its network
  --seed PATH        a file with the 32 bytes of its seed (default /dev/urandom)
";

const POOL_HELP: &[u8] = b"\
Runs an L2TP end over UDP with a pool of workers.

usage: l2tp pool --role lac|lns --number N --listen ADDRESS --store PATH --turns N [OPTION ..]

  --role lac|lns     which end it is
  --number N         its number, 1 to 255
  --listen ADDRESS   the IPv4 address that it listens on, as 127.0.0.1
  --peer ADDRESS     the IPv4 address of its LNS; a LAC needs it
  --store PATH       the file of its checkpoint
  --turns N          how many turns it makes, 0 to 9223372036854775807
  --secret TEXT      the secret of its tunnels, 1 to 64 bytes
  --hide             hides calling numbers; needs --secret
  --open             opens a tunnel before its first turn
  --port N           the UDP port of all ends, 1 to 65535 (default 1701)
  --ether PATH       the Unix socket of its Ethernet port
  --uplink PATH      the Unix socket of its network
  --seed PATH        a file with the 32 bytes of its seed (default /dev/urandom)
  --workers N        how many workers it has, 1 to 64 (default 4)
";

/// The help of `l2tp node`.
#[tactic(auto, unfolding(crate::specs::Helps::node_help_text))]
pub fn node_help() -> &'static [u8]
    ensures { result.now ≡ node_help_text }
{
    NODE_HELP
}

/// The help of `l2tp pool`.
#[tactic(auto, unfolding(crate::specs::Helps::pool_help_text))]
pub fn pool_help() -> &'static [u8]
    ensures { result.now ≡ pool_help_text }
{
    POOL_HELP
}

/// Whether one of the words behind the command's name is `--help`.
pub fn asks_for_help(words: &[String]) -> bool
    ensures { result ≡ has_word (codes "--help") words.now }
{
    words.iter().skip(1).any(|word| word.as_str() == "--help")
}

/// Whether one of the words behind the command's name is `--version`.
pub fn asks_for_version(words: &[String]) -> bool
    ensures { result ≡ has_word (codes "--version") words.now }
{
    words
        .iter()
        .skip(1)
        .any(|word| word.as_str() == "--version")
}
