//! What the words of a command line ask for.

ghost use Rattle.std.specs.Prelude.{◌≡◌, map, string_bytes};
ghost use Rattle.l2tp_capture.specs.Words.{asked_of, asked_by};

/// What the words ask for.
#[derive(Clone, Copy)]
pub enum Asked {
    /// A capture of the report on the source.
    Capture,
    /// To tell how the program is used.
    Help,
    /// To tell which version it is.
    Version,
    /// Nothing: the words are no command.
    Nothing,
}

/// What one word asks for.
fn asked_by(word: &str) -> Asked
    ensures { result ≡ asked_by word.now }
{
    if word == "--help" {
        Asked::Help
    } else if word == "--version" {
        Asked::Version
    } else {
        Asked::Nothing
    }
}

/// What the words after the program's name ask for: none, or `--help` or `--version` alone.
pub fn asked_of(words: &[String]) -> Asked
    ensures { result ≡ asked_of (map string_bytes words.now) }
{
    match words {
        [] => Asked::Capture,
        [word] => asked_by(word.as_str()),
        _ => Asked::Nothing,
    }
}
