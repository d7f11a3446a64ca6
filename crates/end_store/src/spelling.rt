//! The contents of records.

ghost use Rattle.std.specs.Prelude.{◌≡◌, Some};
ghost use Rattle.session_book.specs.Records.{record_of};
ghost use Rattle.session_book.specs.Spelling.{content_of};
ghost use Rattle.step_ledger.specs.Committing.{IsUnmarked};

use session_book::{Record, call_down, call_up, ceiling, mark, tunnel_down, tunnel_up};

/// The content that spells a record. A tunnel comes up without a mark.
#[tactic(auto, unfolding(session_book::specs::Spelling::content_of))]
pub(crate) fn spell(next: &Record) -> [u8; 31]
    ensures bytes { result ≡ content_of next.now }
    ensures read { IsUnmarked next.now → record_of result ≡ Some next.now }
{
    match *next {
        Record::Ceiling { space, number } => ceiling(space, number),
        Record::TunnelUp(tunnel) => tunnel_up(tunnel),
        Record::TunnelDown { local } => tunnel_down(local),
        Record::CallUp(call) => call_up(call),
        Record::CallDown { local } => call_down(local),
        Record::Mark { tunnel, mark: last } => mark(tunnel, last),
    }
}
