use std::alloc::Global;
use std::process::Abort;
use wire_base::Bytes;

/// Fails with the row that is wrong, if one is.
pub(crate) fn none_is_wrong(rt: &impl Abort, wrong: Option<&str>) {
    assert!(rt; wrong == None, "row {wrong:?}");
}

// What follows gives nothing where memory is wanting, and then the tests that take it fail: so a test has no way out where
// it owns a port.

pub(crate) fn bytes_of(alloc: Global, bytes: &[u8]) -> Bytes {
    match Bytes::from_slice(alloc, bytes) {
        Ok(made) => made,
        Err(_) => Bytes::new(alloc),
    }
}

pub(crate) fn string_of(alloc: Global, text: &str) -> String {
    match String::from_str(alloc, text) {
        Ok(made) => made,
        Err(_) => String::new(alloc),
    }
}
