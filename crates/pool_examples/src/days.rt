//! What comes in the tests.

/// Data messages of session 7 in tunnel 3, and a control message of tunnel 3.
const IP: &str = "0002000300070021450001";

const CONTROL: &str = "c802000c0003000000010002";

/// The messages of a LAC that opens a tunnel and a call: SCCRQ, SCCCN, ICRQ and ICCN.
const SCCRQ: &str =
    "c802004c000000000000000080080000000000018008000000020100800a0000000300000003800a000000076c616331800800000009000180080000000a0008000c0000004c000300007530";

const SCCCN: &str = "c802001400010000000100018008000000000003";

const ICRQ: &str =
    "c80200380001000000020001800800000000000a80080000000e0001800a0000000f00000001801200000016666666663030303030303031";

const ICCN: &str =
    "c80200280001000100030002800800000000000c800a0000001805f5e100800a0000001300000001";

/// An LCP request in that call.
const LCP: &str = "000200010001ff03c0210101000a050611223344";

/// Which datagrams come.
#[derive(Clone, Copy)]
pub enum Day {
    /// Every third is a control message for a tunnel that isn't there, and the others are data messages of a session that isn't.
    Strange,
    /// Every third is an SCCRQ, by which a LAC opens a tunnel, and the others are data messages of a session that isn't there.
    Opening,
    /// A LAC opens a tunnel and a call, and then LCP requests come in the call.
    Call,
}

impl Day {
    /// The k-th datagram, in hex digits, counted from 0.
    pub fn datagram(self, k: u32) -> &'static str {
        match (self, k) {
            (Day::Strange, _) => { if k % 3 == 2 { CONTROL } else { IP } }
            (Day::Opening, _) => { if k % 3 == 2 { SCCRQ } else { IP } }
            (Day::Call, 0) => SCCRQ,
            (Day::Call, 1) => SCCCN,
            (Day::Call, 2) => ICRQ,
            (Day::Call, 3) => ICCN,
            (Day::Call, _) => LCP,
        }
    }
}
