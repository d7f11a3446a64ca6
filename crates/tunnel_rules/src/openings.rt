//! What an end says of itself when it opens or accepts a tunnel (RFC 2661 sections 5.1 and 6.1).

ghost use Rattle.std.specs.Prelude.{◌≡◌, ◌≤◌, ◌<◌, length, IfSome, IfOk};
ghost use Rattle.control_message.specs.Pairs.{IsWrittenOpening};
ghost use Rattle.end_model.specs.Messages.{opening_of};
ghost use Rattle.end_model.specs.Secrets.{challenge_by};

use control_message::{Failover, Opening};
use end_model::{Config, Role, host_name};
use std::alloc::Global;
use wire_base::{Bytes, NoMemory};

/// What an end asks the peer of a tunnel that it opens or accepts, where it has a secret: the step's random block.
#[tactic(auto, using(end_model::specs::Secrets::sixteen_is))]
pub fn challenge_by(config: &Config, block: &[u8; 16]) -> Option<[u8; 16]>
    ensures { result ≡ challenge_by config.now.secret block.now }
{
    match &config.secret {
        None => None,
        Some(_) => Some(*block),
    }
}

/// A challenge as the bytes of a message.
fn bytes_of(alloc: Global, challenge: Option<[u8; 16]>) -> Result<Option<Bytes>, NoMemory>
    ensures value { IfOk result (λ bytes. bytes ≡ challenge) }
    ensures sized { IfOk result (λ bytes. IfSome bytes (λ v. length v ≤ 1017)) }
{
    match challenge {
        None => Ok(None),
        Some(challenge) => Ok(Some(Bytes::from_slice(alloc, &challenge)?)),
    }
}

/// What an end says of itself when it opens or accepts a tunnel, with what it asks and answers by its secret.
pub fn opening_of(
    alloc: Global,
    role: Role,
    config: &Config,
    challenge: Option<[u8; 16]>,
    response: Option<[u8; 16]>,
    local: u16,
) -> Result<Opening, NoMemory>
    requires { 0 < local }
    ensures value { IfOk result (λ o. o ≡ opening_of role config.now challenge response local) }
    ensures written { IfOk result IsWrittenOpening }
{
    Ok(Opening {
        version: 0x0100,
        framing: 3,
        name: host_name(alloc, role, config.number)?,
        tunnel: local,
        window: 8,
        failover: Some(Failover {
            flags: 3,
            time: 30_000,
        }),
        challenge: bytes_of(alloc, challenge)?,
        response,
        recovery: None,
        suggested: None,
        attempt: None,
    })
}
