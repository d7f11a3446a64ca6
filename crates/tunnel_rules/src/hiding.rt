//! Messages of which an end hides a value (RFC 2661 section 4.3).

ghost use Rattle.std.specs.Prelude.{◌≡◌, ◌≤◌, length, IfOk, IfSome};
ghost use Rattle.control_message.specs.Pairs.{IsWritten, hidden_of};
ghost use Rattle.end_model.specs.Messages.{hidden_by};
ghost use Rattle.end_model.specs.Secrets.{sixteen};

use control_message::{Message, write_message};
use end_model::Config;
use std::alloc::Global;
use wire_base::{Bytes, NoMemory};

/// The pairs of a message of which an end hides the Calling Number, by its secret and behind a Random Vector, which is the
/// step's random block (RFC 2661 section 4.3). An end that hides nothing has none.
#[tactic(auto, using(end_model::specs::Secrets::sixteen_is))]
pub fn hidden_pairs(
    alloc: Global,
    config: &Config,
    block: &[u8; 16],
    message: &Message,
) -> Result<Option<Bytes>, NoMemory>
    requires written { IsWritten message.now }
    requires short { IfSome (hidden_of message.now) (λ number. length number ≤ 990) }
    ensures { IfOk result (λ h. h ≡ hidden_by config.now.hide config.now.secret (sixteen block.now) message.now) }
{
    if !config.hide {
        return Ok(None);
    }
    let Some(secret) = &config.secret else {
        return Ok(None);
    };
    let mut pairs = Bytes::new(alloc);
    write_message(&mut pairs, message, Some(secret.as_slice()), Some(block))?;
    Ok(Some(pairs))
}

/// A copy of the pairs of a message that hides a value, where it does.
pub fn copy_pairs(alloc: Global, pairs: &Option<Bytes>) -> Result<Option<Bytes>, NoMemory>
    ensures { IfOk result (λ p. p ≡ pairs.now) }
{
    match pairs {
        None => Ok(None),
        Some(pairs) => Ok(Some(Bytes::from_slice(alloc, pairs.as_slice())?)),
    }
}
