//! The cookie that an address is given.

ghost use Rattle.std.specs.Prelude.{◌≡◌};
ghost use Rattle.pppoe_discovery.specs.Cookie.{cookie_of, is_cookie};

use md5::{Digest, Md5};
use wire_base::Bytes;

/// The value of the AC-Cookie that an Ethernet address is given (RFC 2516 section 5.2 and appendix A), 16 bytes: MD5 over
/// the key and the address, each in the order of its bytes. It takes no memory, and nothing is kept of those who ask.
pub fn cookie(key: &[u8; 16], mac: &[u8; 6]) -> [u8; 16]
    ensures { result ≡ cookie_of key.now mac.now }
{
    let mut digest = Md5::new();
    digest.update(key);
    digest.update(mac);
    digest.finalize()
}

/// Whether an AC-Cookie came, and is that of the address.
pub fn is_cookie(key: &[u8; 16], mac: &[u8; 6], given: &Option<Bytes>) -> bool
    ensures { result ≡ is_cookie key.now mac.now given.now }
{
    match given {
        Some(given) => given.as_slice() == cookie(key, mac).as_slice(),
        None => false,
    }
}
