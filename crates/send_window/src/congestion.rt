//! Slow start and congestion avoidance (RFC 2661 appendix A) in whole numbers.

ghost use Rattle.std.specs.Prelude.{◌≡◌, ◌<◌, ◌≤◌};
ghost use Rattle.send_window.specs.Congestion.{grown, wider, times_grown, halved, learnt, opened, IsOpen};

/// The congestion window of a channel, in letters, with what moves it.
#[derive(Clone, Copy)]
pub struct Congestion {
    /// The receive window that the peer advertised. It isn't 0.
    pub peer_window: u16,
    /// Below it an acknowledged letter opens the window by one: slow start.
    pub threshold: u16,
    /// How many letters may be outstanding; from 1 to the peer's window.
    pub window: u16,
    /// The letters acknowledged since the window last grew in congestion avoidance.
    pub counter: u16,
}

impl Congestion {
    /// The window of a channel that begins: 1, and slow start up to the peer's window.
    pub(crate) fn open(peer_window: u16) -> Congestion
        requires { 0 < peer_window }
        ensures value { result ≡ opened peer_window }
        ensures sound { IsOpen result }
    {
        Congestion {
            peer_window,
            threshold: peer_window,
            window: 1,
            counter: 0,
        }
    }

    // The window one letter wider, as far as the peer's allows.
    fn wider(self) -> u16
        requires { IsOpen self }
        ensures value { result ≡ wider self }
        ensures within { result ≤ self.peer_window }
        ensures some { 0 < result }
    {
        if self.window < self.peer_window {
            self.window + 1
        } else {
            self.window
        }
    }

    // After one acknowledged letter.
    fn grow(self) -> Congestion
        requires { IsOpen self }
        ensures value { result ≡ grown self }
        ensures sound { IsOpen result }
    {
        let mut next = self;
        if self.window < self.threshold {
            next.window = self.wider();
        } else if self.counter + 1 < self.window {
            next.counter = self.counter + 1;
        } else {
            next.window = self.wider();
            next.counter = 0;
        }
        next
    }

    /// After so many acknowledged letters.
    pub(crate) fn grow_by(self, count: usize) -> Congestion
        requires { IsOpen self }
        ensures value { result ≡ times_grown count self }
        ensures sound { IsOpen result }
    {
        let mut next = self;
        for _ in 0..count {
            next = next.grow();
        }
        next
    }

    /// After a repetition: the threshold is half the window, at least 1, and the window is 1. The counter stays.
    pub(crate) fn halve(self) -> Congestion
        requires { IsOpen self }
        ensures value { result ≡ halved self }
        ensures sound { IsOpen result }
    {
        Congestion {
            peer_window: self.peer_window,
            threshold: (self.window / 2).max(1),
            window: 1,
            counter: self.counter,
        }
    }

    /// The peer's window becomes known: it is the threshold, and the window is lowered to it where it is above.
    pub(crate) fn learn(self, peer_window: u16) -> Congestion
        requires sound { IsOpen self }
        requires some { 0 < peer_window }
        ensures value { result ≡ learnt self peer_window }
        ensures sound { IsOpen result }
    {
        Congestion {
            peer_window,
            threshold: peer_window,
            window: self.window.min(peer_window),
            counter: self.counter,
        }
    }
}
