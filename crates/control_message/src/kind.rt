//! Which attributes each message uses, and the shapes of their values.

ghost use Rattle.std.specs.Prelude.{◌≡◌};
ghost use Rattle.control_message.specs.Table.{kinds, query_kinds, look_up, kind_of, shape_of, uses_draw, fits};

use crate::attribute::{
    ACCM, ASSIGNED_SESSION, ASSIGNED_TUNNEL, CALL_ERRORS, CALL_SERIAL_NUMBER, CALLING_NUMBER,
    CHALLENGE, CHALLENGE_RESPONSE, CONNECT_SPEED, FAILOVER, FRAMING_CAPABILITIES, FRAMING_TYPE,
    HOST_NAME, PROTOCOL_VERSION, RECOVERY, RESULT_CODE, SEQUENCING_REQUIRED, SESSION_STATE,
    SUGGESTED_SEQUENCE, WINDOW,
};
use wire_base::take_u16;

// The Message Types (RFC 2661 section 3.2, RFC 4951 section 4.3.3).
pub const SCCRQ: u16 = 1;

pub const SCCRP: u16 = 2;

pub const SCCCN: u16 = 3;

pub const STOP_CCN: u16 = 4;

pub const HELLO: u16 = 6;

pub const OCRQ: u16 = 7;

pub const OCRP: u16 = 8;

pub const OCCN: u16 = 9;

pub const ICRQ: u16 = 10;

pub const ICRP: u16 = 11;

pub const ICCN: u16 = 12;

pub const CDN: u16 = 14;

pub const WEN: u16 = 15;

pub const SLI: u16 = 16;

pub const FSQ: u16 = 21;

pub const FSR: u16 = 22;

/// Which messages a reader knows.
#[derive(Clone, Copy, Debug)]
pub enum Kinds {
    /// Those of RFC 2661 alone.
    Base,
    /// The queries of sessions of RFC 4951 too.
    Queries,
}

/// The kind of a control message, as its Message Type names it (RFC 2661 section 3.2).
#[derive(Clone, Copy, Debug)]
pub enum Kind {
    /// Start-Control-Connection-Request.
    Sccrq,
    /// Start-Control-Connection-Reply.
    Sccrp,
    /// Start-Control-Connection-Connected.
    Scccn,
    /// Stop-Control-Connection-Notification.
    StopCcn,
    /// Hello.
    Hello,
    /// Outgoing-Call-Request.
    Ocrq,
    /// Outgoing-Call-Reply.
    Ocrp,
    /// Outgoing-Call-Connected.
    Occn,
    /// Incoming-Call-Request.
    Icrq,
    /// Incoming-Call-Reply.
    Icrp,
    /// Incoming-Call-Connected.
    Iccn,
    /// Call-Disconnect-Notify.
    Cdn,
    /// WAN-Error-Notify.
    Wen,
    /// Set-Link-Info.
    Sli,
    /// Failover-Session-Query (RFC 4951 section 4.3.3).
    Fsq,
    /// Failover-Session-Response (RFC 4951 section 4.3.3).
    Fsr,
}

/// The shape of an attribute's value.
#[derive(Clone, Copy)]
pub enum Shape {
    /// Any bytes, none too.
    Text,
    /// A number in two bytes.
    Short,
    /// A number in two bytes that isn't 0.
    Nonzero,
    /// A number in four bytes.
    Long,
    /// A number in two bytes, then a number in four.
    ShortLong,
    /// Two reserved bytes, then two numbers in two.
    ShortShortShort,
    /// Two reserved bytes, then two numbers in four.
    ShortLongLong,
    /// Sixteen bytes.
    Sixteen,
    /// A number in two bytes, then nothing, or another in two and any bytes behind it (RFC 2661 section 4.4.2).
    ResultCode,
}

impl Kind {
    /// The kind that a Message Type of RFC 2661 names (section 3.2).
    fn base(number: u16) -> Option<Kind>
        ensures { result ≡ look_up number kinds }
    {
        match number {
            SCCRQ => Some(Kind::Sccrq),
            SCCRP => Some(Kind::Sccrp),
            SCCCN => Some(Kind::Scccn),
            STOP_CCN => Some(Kind::StopCcn),
            HELLO => Some(Kind::Hello),
            OCRQ => Some(Kind::Ocrq),
            OCRP => Some(Kind::Ocrp),
            OCCN => Some(Kind::Occn),
            ICRQ => Some(Kind::Icrq),
            ICRP => Some(Kind::Icrp),
            ICCN => Some(Kind::Iccn),
            CDN => Some(Kind::Cdn),
            WEN => Some(Kind::Wen),
            SLI => Some(Kind::Sli),
            _ => None,
        }
    }

    /// The kind that a Message Type of a query names.
    fn query(number: u16) -> Option<Kind>
        ensures { result ≡ look_up number query_kinds }
    {
        match number {
            FSQ => Some(Kind::Fsq),
            FSR => Some(Kind::Fsr),
            _ => None,
        }
    }

    /// The kind that a Message Type names to a reader that knows such messages.
    pub(crate) fn from_number(known: Kinds, number: u16) -> Option<Kind>
        ensures { result ≡ kind_of known number }
    {
        match (Kind::base(number), known) {
            (None, Kinds::Queries) => Kind::query(number),
            (kind, _) => kind,
        }
    }

    /// Whether a message of the kind uses this project's Draw Number.
    pub(crate) fn uses_draw(&self) -> bool
        ensures { result ≡ uses_draw self.now }
    {
        matches!(self, Kind::Sccrq | Kind::Sccrp)
    }

    /// The shape of an attribute's value in a message of the kind; None where such a message doesn't use it.
    pub(crate) fn shape(&self, attribute: u16) -> Option<Shape>
        ensures { result ≡ shape_of self.now attribute }
    {
        match self {
            Kind::Sccrq | Kind::Sccrp => match attribute {
                PROTOCOL_VERSION => Some(Shape::Short),
                FRAMING_CAPABILITIES => Some(Shape::Long),
                HOST_NAME => Some(Shape::Text),
                ASSIGNED_TUNNEL => Some(Shape::Nonzero),
                WINDOW => Some(Shape::Nonzero),
                CHALLENGE => Some(Shape::Text),
                FAILOVER => Some(Shape::ShortLong),
                RECOVERY if matches!(self, Kind::Sccrq) => Some(Shape::ShortLongLong),
                CHALLENGE_RESPONSE if matches!(self, Kind::Sccrp) => Some(Shape::Sixteen),
                SUGGESTED_SEQUENCE if matches!(self, Kind::Sccrp) => Some(Shape::ShortShortShort),
                _ => None,
            },
            Kind::Scccn => match attribute {
                CHALLENGE_RESPONSE => Some(Shape::Sixteen),
                _ => None,
            },
            Kind::Hello | Kind::Occn => None,
            Kind::StopCcn => match attribute {
                RESULT_CODE => Some(Shape::ResultCode),
                ASSIGNED_TUNNEL => Some(Shape::Short),
                _ => None,
            },
            Kind::Ocrq => match attribute {
                ASSIGNED_SESSION => Some(Shape::Short),
                _ => None,
            },
            Kind::Icrq => match attribute {
                ASSIGNED_SESSION => Some(Shape::Short),
                CALL_SERIAL_NUMBER => Some(Shape::Long),
                CALLING_NUMBER => Some(Shape::Text),
                _ => None,
            },
            Kind::Ocrp | Kind::Icrp => match attribute {
                ASSIGNED_SESSION => Some(Shape::Nonzero),
                _ => None,
            },
            Kind::Iccn => match attribute {
                FRAMING_TYPE => Some(Shape::Long),
                CONNECT_SPEED => Some(Shape::Long),
                SEQUENCING_REQUIRED => Some(Shape::Text),
                _ => None,
            },
            Kind::Cdn => match attribute {
                RESULT_CODE => Some(Shape::ResultCode),
                ASSIGNED_SESSION => Some(Shape::Short),
                _ => None,
            },
            Kind::Wen => match attribute {
                CALL_ERRORS => Some(Shape::Text),
                _ => None,
            },
            Kind::Sli => match attribute {
                ACCM => Some(Shape::Text),
                _ => None,
            },
            Kind::Fsq | Kind::Fsr => match attribute {
                SESSION_STATE => Some(Shape::ShortLongLong),
                _ => None,
            },
        }
    }
}

impl Shape {
    /// Whether a value has the shape.
    pub fn fits(&self, value: &[u8]) -> bool
        ensures { result ≡ fits self.now value.now }
    {
        match self {
            Shape::Text => true,
            Shape::Short => value.len() == 2,
            Shape::Nonzero => value.len() == 2 && !matches!(take_u16(value, 0), Ok(0)),
            Shape::Long => value.len() == 4,
            Shape::ShortLong => value.len() == 6,
            Shape::ShortShortShort => value.len() == 6,
            Shape::ShortLongLong => value.len() == 10,
            Shape::Sixteen => value.len() == 16,
            Shape::ResultCode => value.len() == 2 || 4 <= value.len(),
        }
    }
}
