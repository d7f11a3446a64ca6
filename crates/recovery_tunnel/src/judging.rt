//! Which request for a recovery is answered.

ghost use Rattle.std.specs.Prelude.{◌≡◌};
ghost use Rattle.recovery_tunnel.specs.Judging.{judged};

/// What a request for a recovery is, by the number that its end drew for it.
#[derive(Clone, Copy, PartialEq, Eq, Debug)]
pub enum Judged {
    /// A later attempt was answered before.
    Older,
    /// It is the attempt whose answer is live.
    Same,
    /// It is to be answered.
    Fresh,
}

/// What a request is whose end drew `draw`, 0 where it tells no number: `mark` is the largest number that was answered for this
/// tunnel, and `live` whether the answer to that one is live.
pub fn judge(mark: u32, draw: u32, live: bool) -> Judged
    ensures { result ≡ judged mark draw live }
{
    if draw < mark {
        Judged::Older
    } else if draw == mark && live {
        Judged::Same
    } else {
        Judged::Fresh
    }
}
