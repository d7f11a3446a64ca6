//! Laws of discovery.

ghost use Rattle.pppoe_discovery.specs.Laws.{TakesBack, AdmitsCookies, ReadsOffer, ReadsAnswer, ReadsRefusal, ReadsEnd, KeepsStages};

/// A law: a PADR with the cookie that its address was given is admitted under the same key, and nothing is admitted but such
/// a PADR.
pub fn cookies_come_back()
    ensures taken { TakesBack }
    ensures only { AdmitsCookies }
{}

/// A law: what is sent is read again as what was meant, also with padding behind it.
pub fn replies_are_read_again()
    ensures offer { ReadsOffer }
    ensures answer { ReadsAnswer }
    ensures refusal { ReadsRefusal }
    ensures end { ReadsEnd }
{
    pppoe_wire::reads_what_was_written();
}

/// A law: a frame of the session stage is carried or ignored, and is never answered, admitted or taken for a PADT; a frame
/// of discovery is never carried.
pub fn stages_stay_apart()
    ensures { KeepsStages }
{}
