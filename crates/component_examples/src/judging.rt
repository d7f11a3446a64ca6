use std::alloc::Global;
use std::process::Abort;
use wire_base::Bytes;

/// Fails with the number of the row that is wrong, if one is.
pub(crate) fn none_is_wrong(rt: &impl Abort, wrong: Option<u64>) {
    assert!(rt; wrong == None, "row {wrong:?}");
}

/// These bytes; none where memory is wanting, which no test takes for them.
pub(crate) fn bytes_of(alloc: Global, bytes: &[u8]) -> Bytes {
    match Bytes::from_slice(alloc, bytes) {
        Ok(made) => made,
        Err(_) => Bytes::new(alloc),
    }
}
