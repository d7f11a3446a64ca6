use crate::judging::none_is_wrong;
use session_book::*;
use std::alloc::Global;
use wire_base::{Contents, NoMemory};

/// A content: these bytes, then zeros.
fn filled(front: &[u8]) -> [u8; 31] {
    let mut content = [0; 31];
    for (to, byte) in content.iter_mut().zip(front) {
        *to = *byte;
    }
    content
}

const TUNNEL: BookTunnel = BookTunnel {
    local: 1,
    remote: 1,
    peer: 0x0a00_0002,
    window: 8,
    flags: 3,
    mark: 0,
};

const CALL: BookCall = BookCall {
    local: 1,
    tunnel: 1,
    remote: 1,
    subscriber: [0xff, 0xff, 0, 0, 0, 1],
    sequenced: false,
};

fn push_filled(contents: &mut Contents, fronts: &[&[u8]]) -> Result<(), NoMemory> {
    for front in fronts {
        contents.push(filled(front))?;
    }
    Ok(())
}

/// The contents that begin with these bytes, as far as there is memory.
fn contents_of(alloc: Global, fronts: &[&[u8]]) -> Contents {
    let mut contents = Contents::new(alloc);
    let _pushed = push_filled(&mut contents, fronts);
    contents
}

fn book_of(alloc: Global, fronts: &[&[u8]]) -> Result<Book, BookError> {
    Book::of_contents(alloc, &contents_of(alloc, fronts))
}

/// The book has both ceilings at 64, and the tunnel and the call alone.
fn has_both(book: &Book) -> bool {
    book.ceiling(1) == 64
        && book.ceiling(2) == 64
        && book.tunnels().as_slice() == [TUNNEL].as_slice()
        && book.calls().as_slice() == [CALL].as_slice()
}

/// The tunnel takes the mark 5, and is gone as it goes down, with its call.
fn is_marked_and_dropped(book: &mut Book) -> bool {
    if book.reserve(2).is_err() {
        return false;
    }
    book.apply(&mark(1, 5));
    let is_marked = match book.tunnels().as_slice() {
        [tunnel] => tunnel.mark == 5,
        _ => false,
    };
    book.apply(&filled(&[3, 0, 1]));
    is_marked && book.spare() == 0 && book.tunnels().is_empty() && book.calls().is_empty()
}

/// Both ceilings, the tunnel and the call.
const BOTH: [&[u8]; 4] = [
    &[1, 1, 0, 0, 0, 0x40],
    &[1, 2, 0, 0, 0, 0x40],
    &[2, 0, 1, 0, 1, 0x0a, 0, 0, 2, 0, 8, 0, 3],
    &[4, 0, 1, 0, 1, 0, 1, 0xff, 0xff, 0, 0, 0, 1],
];

/// The contents are those that are made of the ceilings, the tunnel and the call.
fn are_made(contents: &[[u8; 31]]) -> bool {
    let made = [
        ceiling(1, 64),
        ceiling(2, 64),
        tunnel_up(TUNNEL),
        call_up(CALL),
    ];
    contents == made.as_slice()
}

fn a_book_has_both(alloc: Global) -> bool {
    match book_of(alloc, &BOTH) {
        Ok(mut book) => has_both(&book) && is_marked_and_dropped(&mut book),
        Err(_) => false,
    }
}

#[test]
fn a_tunnel_with_a_call(rt: HostRuntime) {
    let alloc = rt.alloc();
    assert!(rt; are_made(contents_of(alloc, &BOTH).as_slice()));
    assert!(rt; a_book_has_both(alloc));
}

/// The contents make no book: the one at this place is the first that isn't in place.
fn is_refused_at(alloc: Global, fronts: &[&[u8]], at: usize) -> bool {
    match book_of(alloc, fronts) {
        Err(BookError::BadRecord { at: place }) => place == at,
        _ => false,
    }
}

/// What is refused behind both ceilings and the tunnel.
const REFUSED: [&[u8]; 20] = [
    // a ceiling that doesn't rise, that passes the last number, and of no space
    &[1, 1, 0, 0, 0, 0x40, 0, 0, 0, 0, 0, 0, 0, 0, 0],
    &[1, 1, 0, 1, 0, 0],
    &[1, 2, 0, 0, 0xff, 0xff],
    &[1, 4, 0, 0, 0, 1],
    // a tunnel: kept already, with the id 0, above the ceiling, with the remote id 0, without a window
    &[2, 0, 1, 0, 1, 0x0a, 0, 0, 2, 0, 8, 0, 3],
    &[2, 0, 0, 0, 1, 0x0a, 0, 0, 2, 0, 8, 0, 3],
    &[2, 0, 0x41, 0, 1, 0x0a, 0, 0, 2, 0, 8, 0, 3],
    &[2, 0, 2, 0, 0, 0x0a, 0, 0, 2, 0, 8, 0, 3],
    &[2, 0, 2, 0, 1, 0x0a, 0, 0, 2, 0, 0, 0, 3],
    // what isn't there goes down
    &[3, 0, 2],
    &[5, 0, 1],
    // a call: over no tunnel, with the id 0, above the ceiling, and neither sequenced nor not
    &[4, 0, 1, 0, 2, 0, 1],
    &[4, 0, 0, 0, 1, 0, 1],
    &[4, 0, 0x41, 0, 1, 0, 1],
    &[4, 0, 1, 0, 1, 0, 1, 0, 0, 0, 0, 0, 0, 2],
    // a mark of no tunnel, and one that doesn't rise
    &[6, 0, 2, 0, 0, 0, 1],
    &[6, 0, 1, 0, 0, 0, 0],
    // kinds that there aren't, and a byte behind the fields
    &[0],
    &[7],
    &[3, 0, 1, 1],
];

/// The number of the first of them that isn't refused, counted from 0.
fn first_taken(alloc: Global) -> Option<u64> {
    let mut number = 0u64;
    for front in &REFUSED {
        if !is_refused_at(alloc, &[BOTH[0], BOTH[1], BOTH[2], front, &[9]], 3) {
            return Some(number);
        }
        number = number.saturating_add(1);
    }
    None
}

/// A content whose last byte alone isn't in place.
const LAST: [u8; 31] = *b"\x05\0\x01\0\0\0\0\0\0\0\0\0\0\0\0\0\0\0\0\0\0\0\0\0\0\0\0\0\0\0\x01";

#[test]
fn the_first_content_out_of_place_is_told(rt: HostRuntime) {
    let alloc = rt.alloc();
    assert!(rt; is_refused_at(alloc, &[&[9]], 0));
    assert!(rt; is_refused_at(alloc, &[&[1, 3, 0, 0, 0, 1], &[0]], 1));
    assert!(rt; is_refused_at(alloc, &[&LAST], 0));
    none_is_wrong(&rt, first_taken(alloc));
}

/// Whether these are the contents that the book is compacted to.
fn gives(alloc: Global, book: &Book, wanted: &[[u8; 31]]) -> bool {
    match book.contents(alloc) {
        Ok(contents) => contents.as_slice() == wanted,
        Err(_) => false,
    }
}

/// Whether the book of the first contents is compacted to the others.
fn is_compacted(alloc: Global, fronts: &[&[u8]], left: &[&[u8]]) -> bool {
    let wanted = contents_of(alloc, left);
    match book_of(alloc, fronts) {
        Ok(book) => gives(alloc, &book, wanted.as_slice()),
        Err(_) => false,
    }
}

const WHOLE: [&[u8]; 12] = [
    &[1, 1, 0, 0, 0, 0x40],
    &[1, 3, 0, 0, 0, 0x40],
    &[1, 1, 0, 0, 0, 0x80],
    &[2, 0, 2, 0, 9, 0x0a, 0, 0, 2, 0, 8, 0, 3],
    &[2, 0, 1, 0, 7, 0x0a, 0, 0, 3, 0, 4, 0, 0],
    &[1, 2, 0, 0, 0, 0x40],
    &[4, 0, 7, 0, 2, 0, 5, 0xff, 0xff, 0, 0, 0, 1, 1],
    &[4, 0, 2, 0, 1, 0, 6, 0xff, 0xff, 0, 0, 0, 2, 0],
    &[6, 0, 2, 0, 0, 0, 1],
    &[6, 0, 2, 0, 0, 1, 9],
    &[4, 0, 3, 0, 1, 0, 8, 0xff, 0xff, 0, 0, 0, 3, 0],
    &[5, 0, 3],
];

/// What that is compacted to.
const LEFT: [&[u8]; 8] = [
    &[1, 1, 0, 0, 0, 0x80],
    &[1, 2, 0, 0, 0, 0x40],
    &[1, 3, 0, 0, 0, 0x40],
    &[2, 0, 1, 0, 7, 0x0a, 0, 0, 3, 0, 4, 0, 0],
    &[2, 0, 2, 0, 9, 0x0a, 0, 0, 2, 0, 8, 0, 3],
    &[6, 0, 2, 0, 0, 1, 9],
    &[4, 0, 2, 0, 1, 0, 6, 0xff, 0xff, 0, 0, 0, 2, 0],
    &[4, 0, 7, 0, 2, 0, 5, 0xff, 0xff, 0, 0, 0, 1, 1],
];

#[test]
fn a_book_is_compacted_to_what_it_holds(rt: HostRuntime) {
    assert!(rt; is_compacted(rt.alloc(), &WHOLE, &LEFT));
    // and so is the book of what is left
    assert!(rt; is_compacted(rt.alloc(), &LEFT, &LEFT));
}
