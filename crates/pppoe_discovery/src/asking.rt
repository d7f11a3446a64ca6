//! What a PADI or a PADR asks for.

ghost use Rattle.std.specs.Prelude.{◌≡◌, ◌≤◌, length, filter, find, IfOk, option_copied};
ghost use Rattle.pppoe_wire.specs.Spelling.{spelling};
ghost use Rattle.pppoe_discovery.specs.Asking.{is_of, value_of, is_served, served, names_in, service_of, asked_by, AreShort};

use crate::tag_type::{AC_COOKIE, HOST_UNIQ, RELAY_SESSION_ID, SERVICE_NAME};
use pppoe_wire::Tag;
use std::alloc::Global;
use wire_base::{Bytes, NoMemory};

/// What a PADI or a PADR asks for, by its tags.
#[derive(Drop)]
pub struct Asked {
    /// The one Service-Name, where there is exactly one and its service is served.
    pub service: Option<Bytes>,
    pub cookie: Option<Bytes>,
    pub uniq: Option<Bytes>,
    pub relay: Option<Bytes>,
}

fn find_tag(tags: &[Tag], kind: u16) -> Option<&Tag>
    ensures { option_copied result ≡ find (λ t. is_of kind t) tags.now }
{
    tags.iter().find(|t| t.kind == kind)
}

/// The value of the first tag of a type.
fn copy_value(alloc: Global, tags: &[Tag], kind: u16) -> Result<Option<Bytes>, NoMemory>
    ensures { IfOk result (λ value. value ≡ value_of kind tags.now) }
{
    match find_tag(tags, kind) {
        Some(tag) => Ok(Some(Bytes::from_slice(alloc, tag.value.as_slice())?)),
        None => Ok(None),
    }
}

fn count_names(tags: &[Tag]) -> usize
    ensures { result ≡ names_in tags.now }
{
    tags.iter().filter(|t| t.kind == SERVICE_NAME).count()
}

fn is_served(name: &[u8]) -> bool
    ensures { result ≡ is_served name.now }
{
    name.is_empty() || name == b"l2tp".as_slice()
}

/// The one Service-Name, where there is exactly one and its service is served.
#[tactic(auto, unfolding(crate::specs::Asking::service_of))]
fn copy_service(alloc: Global, tags: &[Tag]) -> Result<Option<Bytes>, NoMemory>
    ensures { IfOk result (λ service. service ≡ service_of tags.now) }
{
    if count_names(tags) != 1 {
        return Ok(None);
    }
    match copy_value(alloc, tags, SERVICE_NAME)? {
        Some(name) if is_served(name.as_slice()) => Ok(Some(name)),
        _ => Ok(None),
    }
}

impl Asked {
    /// What is asked for by tags. Of a type that is repeated the first counts.
    pub fn of_tags(alloc: Global, tags: &[Tag]) -> Result<Asked, NoMemory>
        ensures { IfOk result (λ asked. asked ≡ asked_by tags.now) }
    {
        Ok(Asked {
            service: copy_service(alloc, tags)?,
            cookie: copy_value(alloc, tags, AC_COOKIE)?,
            uniq: copy_value(alloc, tags, HOST_UNIQ)?,
            relay: copy_value(alloc, tags, RELAY_SESSION_ID)?,
        })
    }
}
