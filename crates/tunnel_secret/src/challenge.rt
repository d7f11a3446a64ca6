//! Responses to challenges.

ghost use Rattle.std.specs.Prelude.{◌≡◌, ◌↔◌, IsTrue};
ghost use Rattle.tunnel_secret.specs.Response.{response_of, is_response};

use md5::{Digest, Md5};

/// The response to a challenge (RFC 2661 sections 4.4.3 and 5.1.1). The kind is the type of the message that carries it,
/// 2 in SCCRP and 3 in SCCCN. It takes no memory.
pub fn response(kind: u8, secret: &[u8], challenge: &[u8]) -> [u8; 16]
    ensures { result ≡ response_of kind secret.now challenge.now }
{
    let mut digest = Md5::new();
    digest.update(&[kind]);
    digest.update(secret);
    digest.update(challenge);
    digest.finalize()
}

/// Whether two digests are the same. All bytes are looked at, so that the time doesn't tell where they differ.
fn are_same(wanted: &[u8; 16], given: &[u8; 16]) -> bool
    ensures { IsTrue result ↔ (given.now ≡ wanted.now) }
{
    let mut differing = 0;
    for i in 0..16 {
        differing |= wanted[i] ^ given[i];
    }
    differing == 0
}

/// Whether a response to a challenge is right. It takes no memory.
pub fn check_response(kind: u8, secret: &[u8], challenge: &[u8], given: &[u8; 16]) -> bool
    ensures right { IsTrue result ↔ (given.now ≡ response_of kind secret.now challenge.now) }
    // For callers: the answer as a function of what is given.
    ensures exact { result ≡ is_response kind secret.now challenge.now given.now }
{
    are_same(&response(kind, secret, challenge), given)
}
