//! What ends ask of one another and answer by a secret (RFC 2661 section 5.1.1).

ghost use Rattle.std.specs.Prelude.{◌≡◌, option_copied};
ghost use Rattle.recovery_tunnel.specs.Secrets.{response_by, lacks_secret, is_wrong};

use tunnel_secret::{check_response, response};
use wire_base::Bytes;

/// What an end answers in a message of this type, where it was asked and has a secret.
pub(crate) fn response_by(
    kind: u8,
    secret: Option<&[u8]>,
    challenge: &Option<Bytes>,
) -> Option<[u8; 16]>
    ensures { result ≡ response_by kind (option_copied secret.entry) challenge.now }
{
    match (secret, challenge) {
        (Some(secret), Some(challenge)) => Some(response(kind, secret, challenge.as_slice())),
        _ => None,
    }
}

/// Whether an end is asked what only one who knows the secret can answer, and has none.
pub(crate) fn lacks_secret(secret: Option<&[u8]>, challenge: &Option<Bytes>) -> bool
    ensures { result ≡ lacks_secret (option_copied secret.entry) challenge.now }
{
    challenge.is_some() && secret.is_none()
}

/// Whether an end that has a secret asked this, and is answered wrongly or not at all.
pub(crate) fn is_wrong(
    kind: u8,
    secret: Option<&[u8]>,
    asked: &Option<Bytes>,
    given: &Option<[u8; 16]>,
) -> bool
    ensures { result ≡ is_wrong kind (option_copied secret.entry) asked.now given.now }
{
    match (secret, asked) {
        (Some(secret), Some(asked)) => match given {
            None => true,
            Some(given) => !check_response(kind, secret, asked.as_slice(), given),
        },
        _ => false,
    }
}
