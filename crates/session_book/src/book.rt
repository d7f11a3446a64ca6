//! The book of an end, kept up record by record.

ghost use Rattle.std.specs.Prelude.{◌≡◌, ◌+◌, ◌-◌, ◌<◌, ◌≤◌, ◌++◌, if◌then◌else◌, nat_lt, ltb, true, false, is_some, map, max, length, insert, remove, slice_index, slice_set, IfOk, OnOk, OnErr, Ok, Some};
ghost use Rattle.std.specs.Vec.{vec_capacity, vec_len};
ghost use Rattle.std.specs.List.Sorted.{IsPartitionPoint};
ghost use Rattle.wire_base.specs.Answers.{Gives};
ghost use Rattle.session_book.specs.Books.{AreRising, nothing_kept, place, entry, put, calls_of, ceiling, last, is_free, tunnel_at, call_at, tunnel_fits, call_fits, fits, raised, stepped, marked, tunnels_without, calls_without, calls_not_of, is_in_place, after_content, book_of};
ghost use Rattle.session_book.specs.Spelling.{content_of, contents_of, FitsTunnel, FitsCall, FitsFields, IsWhole, ceiling_records, tunnel_records, tunnels_records, calls_records};
ghost use Rattle.session_book.specs.Told.{Told};

use crate::record::{BookCall, BookTunnel, KeptCalls, KeptTunnels, Record, read_record};
use crate::writing;
use std::alloc::Global;
use std::marker::Model;
use wire_base::{Contents, NoMemory};

/// How many tunnels a book may have, and how many calls one of its tunnels.
const TUNNELS: usize = 1024;

const CALLS: u16 = 4096;

/// Why contents make no book.
#[derive(Clone, Copy)]
pub enum BookError {
    /// The first content, counted from 0, that isn't in place after those before it.
    BadRecord { at: usize },
    /// Memory was wanting.
    NoMemory,
}

impl From<NoMemory> for BookError {
    ghost use Rattle.session_book.specs.declared.book.BookError.TheVariants as errors;

    ghost from_gives = { λ _ e. e ≡ errors.NoMemory };

    fn from(_e: NoMemory) -> BookError {
        BookError::NoMemory
    }
}

/// The tunnels and calls of an end that are established, and how far its ids may be drawn. It has room for a number of
/// further contents, its spare.
#[derive(Drop)]
pub struct Book {
    tunnel_ceiling: u32,
    session_ceiling: u32,
    draw_ceiling: u32,
    tunnels: Vec<BookTunnel>,
    calls: Vec<BookCall>,
    // How many calls each tunnel has, in the order of the tunnels.
    counts: Vec<u16>,
    spare: u32,
}

impl Model for Book {
    ghost use Rattle.std.specs.Vec.{vec_capacity};
    ghost use Rattle.session_book.specs.Books.{Kept, Held, IsSound, IsCounted};
    ghost use Rattle.session_book.specs.Spelling.{IsWhole};

    ghost Value = { Held };

    ghost view = { λ b. record { kept = record { tunnel_ceiling = b.tunnel_ceiling; session_ceiling = b.session_ceiling; draw_ceiling = b.draw_ceiling; tunnels = b.tunnels.items; calls = b.calls.items }; spare = b.spare } };

    ghost invariant = { λ b. record {
      sound : IsSound b.tunnels.items b.calls.items b.spare (vec_capacity b.tunnels) (vec_capacity b.calls);
      counted : IsCounted b.tunnels.items b.calls.items b.counts.items b.spare (vec_capacity b.counts);
      whole : IsWhole (record { tunnel_ceiling = b.tunnel_ceiling; session_ceiling = b.session_ceiling; draw_ceiling = b.draw_ceiling; tunnels = b.tunnels.items; calls = b.calls.items });
    } };
}

impl Book {
    /// No tunnels and no calls; nothing may be drawn yet. It takes no memory.
    pub fn new(alloc: Global) -> Book
        ensures kept { result.kept ≡ nothing_kept }
        ensures spare { result.spare ≡ 0 }
    {
        Book {
            tunnel_ceiling: 0,
            session_ceiling: 0,
            draw_ceiling: 0,
            tunnels: Vec::new(alloc),
            calls: Vec::new(alloc),
            counts: Vec::new(alloc),
            spare: 0,
        }
    }

    /// The book of a checkpoint: the fold of its contents, in order. Its spare is 0.
    pub fn of_contents(alloc: Global, c: &Contents) -> Result<Book, BookError>
        ensures contents { Gives Told (λ b. b.kept) result (book_of c.now) }
        ensures spare { IfOk result (λ b. b.spare ≡ 0) }
    {
        let mut book = Book::new(alloc);
        for (at, content) in c.as_slice().iter().enumerate() {
            book.reserve(1)?;
            if !book.step(content) {
                return Err(BookError::BadRecord { at });
            }
        }
        Ok(book)
    }

    /// Makes the spare at least `count`: so many further contents take no memory. Where memory is wanting, it is as before.
    pub fn reserve(&mut self, count: u32) -> Result<(), NoMemory>
        ensures kept { self.new.kept ≡ self.old.kept }
        ensures ok { OnOk result (self.new.spare ≡ max self.old.spare count) }
        ensures err { OnErr result (self.new.spare ≡ self.old.spare) }
    {
        self.tunnels.reserve(count as usize)?;
        self.calls.reserve(count as usize)?;
        self.counts.reserve(count as usize)?;
        self.spare = self.spare.max(count);
        Ok(())
    }

    /// Takes a content in, without memory; its condition is that the spare isn't 0. A content that isn't in place changes
    /// nothing but the spare.
    pub fn apply(&mut self, content: &[u8; 31])
        requires { 0 < self.old.spare }
        ensures kept { self.new.kept ≡ after_content self.old.kept content.now }
        ensures spare { self.new.spare + 1 ≡ self.old.spare }
    {
        self.step(content);
    }

    /// Takes a record in, without memory, and says whether it is in place; its condition is that the spare isn't 0. A record that isn't
    /// in place changes nothing but the spare.
    pub fn apply_record(&mut self, next: Record) -> bool
        requires { 0 < self.old.spare }
        ensures answer { result ≡ fits self.old.kept next }
        ensures kept { self.new.kept ≡ if fits self.old.kept next then stepped self.old.kept next else self.old.kept }
        ensures spare { self.new.spare + 1 ≡ self.old.spare }
    {
        if self.fits(&next) {
            self.take(next);
            true
        } else {
            self.spare -= 1;
            false
        }
    }

    /// Whether a record is in place: it may come next, after those that the book has. It changes nothing.
    pub fn fits(&self, next: &Record) -> bool
        ensures { result ≡ fits self.now.kept next.now }
    {
        match *next {
            Record::Ceiling { space, number } => {
                may_rise(self.ceiling(space), number) && number <= last(space)
            }
            Record::TunnelUp(tunnel) => self.tunnel_fits(&tunnel),
            Record::TunnelDown { local } => self.has_tunnel(local),
            Record::CallUp(call) => self.call_fits(&call),
            Record::CallDown { local } => self.call(local).is_some(),
            Record::Mark { tunnel, mark } => match self.tunnel(tunnel) {
                Some(marked) => marked.mark < mark,
                None => false,
            },
        }
    }

    /// What stands together in a book, a law: its ceilings are within their spaces; its tunnels and calls stand in the order of their ids,
    /// none of which is 0 or above its ceiling; each tunnel has a peer's id and a window that aren't 0; each call is over a tunnel of the
    /// book; and there are at most 1,024 tunnels, each with at most 4,096 calls.
    pub fn is_whole(&self)
        ensures { IsWhole self.now.kept }
    {
        // A look at a field tells the proof the book's invariant.
        let _ = &self.tunnels;
    }

    /// For how many further contents there is room.
    pub fn spare(&self) -> u32
        ensures { result ≡ self.now.spare }
    {
        self.spare
    }

    /// The tunnels that are established, by rising ids.
    pub fn tunnels(&self) -> &KeptTunnels
        ensures tunnels { result.now.items ≡ self.now.kept.tunnels }
        ensures in_order { AreRising (λ t. t.local) result.now.items }
    {
        &self.tunnels
    }

    /// The calls that are established, by rising ids.
    pub fn calls(&self) -> &KeptCalls
        ensures calls { result.now.items ≡ self.now.kept.calls }
        ensures in_order { AreRising (λ c. c.local) result.now.items }
    {
        &self.calls
    }

    /// The greatest number of a space that may be drawn: space 1 has the tunnel ids, 2 the session ids, 3 the draw numbers.
    /// It is 0 for any other.
    pub fn ceiling(&self, space: u8) -> u32
        ensures number { result ≡ ceiling self.now.kept space }
        ensures within { result ≤ last space }
    {
        match space {
            1 => self.tunnel_ceiling,
            2 => self.session_ceiling,
            3 => self.draw_ceiling,
            _ => 0,
        }
    }

    /// The contents that have this book, and nothing of how it came about: the ceilings that aren't 0 by their spaces; then
    /// each tunnel, by rising ids, and behind it its mark where that isn't 0; then each call, by rising ids. There are at most
    /// 67,585 of them: 3 ceilings, 2 for each of 1,024 tunnels, and one for each of 65,534 ids of calls.
    pub fn contents(&self, alloc: Global) -> Result<Contents, NoMemory>
        ensures contents { IfOk result (λ contents. contents ≡ contents_of self.now.kept) }
        ensures same { IfOk result (λ contents. book_of contents ≡ Ok self.now.kept) }
        ensures few { IfOk result (λ contents. length contents ≤ 67585) }
    {
        self.gather(alloc)
    }

    // The contents of its ceilings, tunnels and calls.
    fn gather(&self, alloc: Global) -> Result<Contents, NoMemory>
        ensures contents { IfOk result (λ contents. contents ≡ contents_of self.now.kept) }
        ensures whole { IsWhole self.now.kept }
    {
        let mut contents = Contents::new(alloc);
        push_ceiling(&mut contents, 1, self.tunnel_ceiling)?;
        push_ceiling(&mut contents, 2, self.session_ceiling)?;
        push_ceiling(&mut contents, 3, self.draw_ceiling)?;
        push_tunnels(&mut contents, self.tunnels.as_slice())?;
        push_calls(&mut contents, self.calls.as_slice())?;
        Ok(contents)
    }

    // Takes a content in, and says whether it is in place.
    fn step(&mut self, content: &[u8; 31]) -> bool
        requires { 0 < self.old.spare }
        ensures answer { result ≡ is_in_place self.old.kept content.now }
        ensures kept { self.new.kept ≡ after_content self.old.kept content.now }
        ensures spare { self.new.spare + 1 ≡ self.old.spare }
    {
        match read_record(content) {
            Some(next) => self.apply_record(next),
            None => {
                self.spare -= 1;
                false
            }
        }
    }

    fn tunnel_fits(&self, tunnel: &BookTunnel) -> bool
        ensures { result ≡ tunnel_fits self.now.kept tunnel.now }
    {
        is_free(
            tunnel.local,
            self.tunnel_ceiling,
            self.has_tunnel(tunnel.local),
        ) && self.tunnels.len() < TUNNELS
            && tunnel.remote > 0
            && tunnel.window > 0
    }

    fn call_fits(&self, call: &BookCall) -> bool
        ensures { result ≡ call_fits self.now.kept call.now }
    {
        is_free(
            call.local,
            self.session_ceiling,
            self.call(call.local).is_some(),
        ) && self.has_tunnel(call.tunnel)
            && self.count(call.tunnel) < CALLS
    }

    // How many calls a tunnel has: none where there is no such tunnel.
    fn count(&self, tunnel: u16) -> u16
        ensures { result ≡ length (calls_of tunnel self.now.kept.calls) }
    {
        count_of(self.tunnels.as_slice(), self.counts.as_slice(), tunnel)
    }

    // Whether a tunnel has this id.
    fn has_tunnel(&self, local: u16) -> bool
        ensures { result ≡ is_some (tunnel_at self.now.kept local) }
    {
        self.tunnel(local).is_some()
    }

    // The tunnel with this id.
    fn tunnel(&self, local: u16) -> Option<BookTunnel>
        ensures { result ≡ tunnel_at self.now.kept local }
    {
        let at = tunnel_place(self.tunnels.as_slice(), local);
        match self.tunnels.get(at) {
            Some(tunnel) if tunnel.local == local => Some(*tunnel),
            _ => None,
        }
    }

    // The call with this id.
    fn call(&self, local: u16) -> Option<BookCall>
        ensures { result ≡ call_at self.now.kept local }
    {
        let at = call_place(self.calls.as_slice(), local);
        match self.calls.get(at) {
            Some(call) if call.local == local => Some(*call),
            _ => None,
        }
    }

    // Takes a record in that is in place.
    fn take(&mut self, next: Record)
        requires spare { 0 < self.old.spare }
        requires fits { fits self.old.kept next ≡ true }
        ensures kept { self.new.kept ≡ stepped self.old.kept next }
        ensures spare { self.new.spare + 1 ≡ self.old.spare }
    {
        fields_fit(next);
        self.spare -= 1;
        match next {
            Record::Ceiling { space, number } => self.raise(space, number),
            Record::TunnelUp(tunnel) => {
                put_count(self.tunnels.as_slice(), &mut self.counts, tunnel.local);
                put_tunnel(&mut self.tunnels, tunnel);
            }
            Record::TunnelDown { local } => {
                let count = remove_count(self.tunnels.as_slice(), &mut self.counts, local);
                remove_tunnel(&mut self.tunnels, local);
                remove_calls_of(&mut self.calls, local, count);
            }
            Record::CallUp(call) => {
                raise_count(self.tunnels.as_slice(), &mut self.counts, call.tunnel);
                put_call(&mut self.calls, call);
            }
            Record::CallDown { local } => {
                let gone = remove_call(&mut self.calls, local);
                lower_count(self.tunnels.as_slice(), &mut self.counts, gone.tunnel);
            }
            Record::Mark { tunnel, mark } => mark_tunnel(&mut self.tunnels, tunnel, mark),
        }
    }

    // Sets the ceiling of a space.
    fn raise(&mut self, space: u8, number: u32)
        requires above { ceiling self.old.kept space < number }
        requires within { number ≤ last space }
        ensures kept { self.new.kept ≡ raised space number self.old.kept }
        ensures spare { self.new.spare ≡ self.old.spare }
    {
        match space {
            1 => self.tunnel_ceiling = number,
            2 => self.session_ceiling = number,
            3 => self.draw_ceiling = number,
            _ => (),
        }
    }
}

// The fields of a record fit their bytes, as their types say.
fn fields_fit(next: Record)
    ensures { FitsFields next }
{
    match next {
        Record::TunnelUp(tunnel) => tunnel_fields_fit(tunnel),
        Record::CallUp(call) => call_fields_fit(call),
        _ => (),
    }
}

fn tunnel_fields_fit(tunnel: BookTunnel)
    ensures { FitsTunnel tunnel }
{}

fn call_fields_fit(call: BookCall)
    ensures { FitsCall call }
{}

// The content of a ceiling, behind others, unless it is 0.
fn push_ceiling(contents: &mut Contents, space: u8, number: u32) -> Result<(), NoMemory>
    ensures { OnOk result (contents.new ≡ contents.old ++ map (λ r. content_of r) (ceiling_records space number)) }
{
    if number > 0 {
        contents.push(writing::ceiling(space, number))?;
    }
    Ok(())
}

// The contents of a tunnel, behind others.
fn push_tunnel(contents: &mut Contents, tunnel: BookTunnel) -> Result<(), NoMemory>
    ensures { OnOk result (contents.new ≡ contents.old ++ map (λ r. content_of r) (tunnel_records tunnel)) }
{
    contents.push(writing::tunnel_up(tunnel))?;
    if tunnel.mark > 0 {
        contents.push(writing::mark(tunnel.local, tunnel.mark))?;
    }
    Ok(())
}

fn push_tunnels(contents: &mut Contents, tunnels: &[BookTunnel]) -> Result<(), NoMemory>
    ensures { OnOk result (contents.new ≡ contents.old ++ map (λ r. content_of r) (tunnels_records tunnels.now)) }
{
    for tunnel in tunnels {
        push_tunnel(contents, *tunnel)?;
    }
    Ok(())
}

fn push_calls(contents: &mut Contents, calls: &[BookCall]) -> Result<(), NoMemory>
    ensures { OnOk result (contents.new ≡ contents.old ++ map (λ r. content_of r) (calls_records calls.now)) }
{
    for call in calls {
        contents.push(writing::call_up(*call))?;
    }
    Ok(())
}

// The last number of a space.
fn last(space: u8) -> u32
    ensures { result ≡ last space }
{
    match space {
        1 => 65535,
        2 => 65534,
        3 => u32::MAX,
        _ => 0,
    }
}

// Whether a ceiling may be raised to a number.
fn may_rise(ceiling: u32, number: u32) -> bool
    ensures { result ≡ nat_lt ceiling number }
{
    ceiling < number
}

// Whether an id was drawn, and no one has it.
fn is_free(id: u16, ceiling: u32, taken: bool) -> bool
    ensures { result ≡ is_free id ceiling taken }
{
    id > 0 && u32::from(id) <= ceiling && !taken
}

// How many tunnels come before an id.
fn tunnel_place(tunnels: &[BookTunnel], local: u16) -> usize
    requires { AreRising (λ t. t.local) tunnels.now }
    ensures place { result ≡ place (λ t. t.local) local tunnels.now }
    ensures within { result ≤ length tunnels.now }
    ensures there { is_some (entry (λ t. t.local) local tunnels.now) ≡ true → result < length tunnels.now }
    ensures parted { IsPartitionPoint (λ t. ltb t.local local ≡ true) (λ t. ltb t.local local ≡ false) tunnels.now result }
{
    tunnels.partition_point(|tunnel| tunnel.local < local)
}

// How many calls come before an id.
fn call_place(calls: &[BookCall], local: u16) -> usize
    requires { AreRising (λ c. c.local) calls.now }
    ensures place { result ≡ place (λ c. c.local) local calls.now }
    ensures within { result ≤ length calls.now }
    ensures there { is_some (entry (λ c. c.local) local calls.now) ≡ true → result < length calls.now }
    ensures parted { IsPartitionPoint (λ c. ltb c.local local ≡ true) (λ c. ltb c.local local ≡ false) calls.now result }
{
    calls.partition_point(|call| call.local < local)
}

// How many calls a tunnel has, as the counts say in the order of the tunnels: none where it isn't there.
fn count_of(tunnels: &[BookTunnel], counts: &[u16], local: u16) -> u16
    requires in_order { AreRising (λ t. t.local) tunnels.now }
    requires long { length counts.now ≡ length tunnels.now }
    ensures there { is_some (entry (λ t. t.local) local tunnels.now) ≡ true → result ≡ slice_index counts.now (place (λ t. t.local) local tunnels.now) }
    ensures none { is_some (entry (λ t. t.local) local tunnels.now) ≡ false → result ≡ 0 }
{
    let at = tunnel_place(tunnels, local);
    match tunnels.get(at) {
        Some(tunnel) if tunnel.local == local => counts[at],
        _ => 0,
    }
}

// A count more, for a tunnel that comes up and has no calls.
fn put_count(tunnels: &[BookTunnel], counts: &mut Vec<u16>, local: u16)
    requires in_order { AreRising (λ t. t.local) tunnels.now }
    requires long { length counts.old.items ≡ length tunnels.now }
    requires room { vec_len counts.old < vec_capacity counts.old }
    ensures counts { counts.new.items ≡ insert counts.old.items (place (λ t. t.local) local tunnels.now) 0 }
    ensures capacity { vec_capacity counts.old ≤ vec_capacity counts.new }
{
    let at = tunnel_place(tunnels, local);
    match counts.insert(at, 0) {
        Ok(()) => (),
        Err(_) => unreachable!(),
    }
}

// Takes out the count of a tunnel.
fn remove_count(tunnels: &[BookTunnel], counts: &mut Vec<u16>, local: u16) -> u16
    requires in_order { AreRising (λ t. t.local) tunnels.now }
    requires long { length counts.old.items ≡ length tunnels.now }
    requires there { is_some (entry (λ t. t.local) local tunnels.now) ≡ true }
    ensures count { result ≡ slice_index counts.old.items (place (λ t. t.local) local tunnels.now) }
    ensures counts { counts.new.items ≡ remove counts.old.items (place (λ t. t.local) local tunnels.now) }
    ensures capacity { vec_capacity counts.new ≡ vec_capacity counts.old }
{
    let at = tunnel_place(tunnels, local);
    counts.remove(at)
}

// A tunnel has a call more.
fn raise_count(tunnels: &[BookTunnel], counts: &mut Vec<u16>, local: u16)
    requires in_order { AreRising (λ t. t.local) tunnels.now }
    requires long { length counts.old.items ≡ length tunnels.now }
    requires there { is_some (entry (λ t. t.local) local tunnels.now) ≡ true }
    requires few { slice_index counts.old.items (place (λ t. t.local) local tunnels.now) < 4096 }
    ensures counts { counts.new.items ≡ slice_set counts.old.items (place (λ t. t.local) local tunnels.now) (slice_index counts.old.items (place (λ t. t.local) local tunnels.now) + 1) }
    ensures capacity { vec_capacity counts.new ≡ vec_capacity counts.old }
{
    let at = tunnel_place(tunnels, local);
    counts[at] += 1;
}

// A tunnel has a call less.
fn lower_count(tunnels: &[BookTunnel], counts: &mut Vec<u16>, local: u16)
    requires in_order { AreRising (λ t. t.local) tunnels.now }
    requires long { length counts.old.items ≡ length tunnels.now }
    requires there { is_some (entry (λ t. t.local) local tunnels.now) ≡ true }
    requires some { 0 < slice_index counts.old.items (place (λ t. t.local) local tunnels.now) }
    ensures counts { counts.new.items ≡ slice_set counts.old.items (place (λ t. t.local) local tunnels.now) (slice_index counts.old.items (place (λ t. t.local) local tunnels.now) - 1) }
    ensures capacity { vec_capacity counts.new ≡ vec_capacity counts.old }
{
    let at = tunnel_place(tunnels, local);
    counts[at] -= 1;
}

fn put_tunnel(tunnels: &mut Vec<BookTunnel>, tunnel: BookTunnel)
    requires room { vec_len tunnels.old < vec_capacity tunnels.old }
    requires in_order { AreRising (λ t. t.local) tunnels.old.items }
    requires fresh { is_some (entry (λ t. t.local) tunnel.local tunnels.old.items) ≡ false }
    ensures items { tunnels.new.items ≡ put (λ t. t.local) tunnel tunnels.old.items }
    ensures in_order { AreRising (λ t. t.local) tunnels.new.items }
    ensures len { vec_len tunnels.new ≡ vec_len tunnels.old + 1 }
    ensures capacity { vec_capacity tunnels.old ≤ vec_capacity tunnels.new }
{
    let at = tunnel_place(tunnels.as_slice(), tunnel.local);
    match tunnels.insert(at, tunnel) {
        Ok(()) => (),
        Err(_) => unreachable!(),
    }
}

fn put_call(calls: &mut Vec<BookCall>, call: BookCall)
    requires room { vec_len calls.old < vec_capacity calls.old }
    requires in_order { AreRising (λ c. c.local) calls.old.items }
    requires fresh { is_some (entry (λ c. c.local) call.local calls.old.items) ≡ false }
    ensures items { calls.new.items ≡ put (λ c. c.local) call calls.old.items }
    ensures in_order { AreRising (λ c. c.local) calls.new.items }
    ensures len { vec_len calls.new ≡ vec_len calls.old + 1 }
    ensures capacity { vec_capacity calls.old ≤ vec_capacity calls.new }
{
    let at = call_place(calls.as_slice(), call.local);
    match calls.insert(at, call) {
        Ok(()) => (),
        Err(_) => unreachable!(),
    }
}

fn remove_tunnel(tunnels: &mut Vec<BookTunnel>, local: u16)
    requires in_order { AreRising (λ t. t.local) tunnels.old.items }
    requires there { is_some (entry (λ t. t.local) local tunnels.old.items) ≡ true }
    ensures in_order { AreRising (λ t. t.local) tunnels.new.items }
    ensures items { tunnels.new.items ≡ tunnels_without local tunnels.old.items }
    ensures len { vec_len tunnels.new + 1 ≡ vec_len tunnels.old }
    ensures capacity { vec_capacity tunnels.new ≡ vec_capacity tunnels.old }
{
    let at = tunnel_place(tunnels.as_slice(), local);
    tunnels.remove(at);
}

// Takes out the call with an id, and gives it.
fn remove_call(calls: &mut Vec<BookCall>, local: u16) -> BookCall
    requires in_order { AreRising (λ c. c.local) calls.old.items }
    requires there { is_some (entry (λ c. c.local) local calls.old.items) ≡ true }
    ensures gone { entry (λ c. c.local) local calls.old.items ≡ Some result }
    ensures in_order { AreRising (λ c. c.local) calls.new.items }
    ensures items { calls.new.items ≡ calls_without local calls.old.items }
    ensures len { vec_len calls.new + 1 ≡ vec_len calls.old }
    ensures capacity { vec_capacity calls.new ≡ vec_capacity calls.old }
{
    let at = call_place(calls.as_slice(), local);
    calls.remove(at)
}

// Takes out the calls of a tunnel, which are as many as its count says; where it has none it looks at no call.
fn remove_calls_of(calls: &mut Vec<BookCall>, tunnel: u16, count: u16)
    requires in_order { AreRising (λ c. c.local) calls.old.items }
    requires counted { count ≡ length (calls_of tunnel calls.old.items) }
    ensures in_order { AreRising (λ c. c.local) calls.new.items }
    ensures items { calls.new.items ≡ calls_not_of tunnel calls.old.items }
    ensures len { vec_len calls.new ≤ vec_len calls.old }
    ensures capacity { vec_capacity calls.new ≡ vec_capacity calls.old }
{
    if count > 0 {
        retain_calls(calls, tunnel);
    }
}

fn retain_calls(calls: &mut Vec<BookCall>, tunnel: u16)
    requires { AreRising (λ c. c.local) calls.old.items }
    ensures in_order { AreRising (λ c. c.local) calls.new.items }
    ensures items { calls.new.items ≡ calls_not_of tunnel calls.old.items }
    ensures len { vec_len calls.new ≤ vec_len calls.old }
    ensures capacity { vec_capacity calls.new ≡ vec_capacity calls.old }
{
    calls.retain(|call| call.tunnel != tunnel);
}

fn mark_tunnel(tunnels: &mut Vec<BookTunnel>, local: u16, mark: u32)
    requires in_order { AreRising (λ t. t.local) tunnels.old.items }
    requires there { is_some (entry (λ t. t.local) local tunnels.old.items) ≡ true }
    ensures in_order { AreRising (λ t. t.local) tunnels.new.items }
    ensures items { tunnels.new.items ≡ marked local mark tunnels.old.items }
    ensures len { vec_len tunnels.new ≡ vec_len tunnels.old }
    ensures capacity { vec_capacity tunnels.new ≡ vec_capacity tunnels.old }
{
    let at = tunnel_place(tunnels.as_slice(), local);
    tunnels[at].mark = mark;
}
