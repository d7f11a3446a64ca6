//! The texts of what was sent.

ghost use Rattle.capture_laws.specs.Texts.{SendsAreRead, FramesAreRead};

/// A law: in front of any other lines, the text of a datagram that a report tells of is read as that datagram, and the text of an
/// Ethernet frame as that frame. Both have 1 to 65,507 bytes.
pub fn sent_texts_are_read()
    ensures sends { SendsAreRead }
    ensures frames { FramesAreRead }
{}
