//! The faults of an object over the system.

ghost use Rattle.std.specs.Prelude.{◌≡◌, IfOk, Ok};
ghost use Rattle.wire_base.specs.Causes.{HasCause};

use std::io;
use std::marker::Model;
use wire_base::Failed;

/// How often an object failed, and the system's error of the last time.
#[derive(Drop)]
pub struct Faults {
    count: u64,
    last: Option<io::Error>,
}

impl Model for Faults {
    ghost use Rattle.std.specs.Prelude.{ℕ};

    ghost Value = { ℕ };

    ghost view = { λ f. f.count };
}

impl Faults {
    /// It didn't fail yet.
    pub fn new() -> Faults
        ensures { result ≡ 0 }
    {
        Faults {
            count: 0,
            last: None,
        }
    }

    /// Passes on what the system answered; an error is counted, and kept.
    pub fn counted<T: Drop>(&mut self, answer: io::Result<T>) -> Result<T, Failed>
        ensures value { IfOk result (λ x. answer ≡ Ok x) }
        ensures cause { HasCause self.old self.new result }
    {
        match answer {
            Ok(value) => Ok(value),
            Err(error) => {
                self.count = self.count.saturating_add(1);
                self.last = Some(error);
                Err(Failed)
            }
        }
    }

    /// The error of the last time that it failed; none where it never did.
    pub fn last_error(&self) -> Option<io::Error> {
        self.last
    }
}
