//! A text that contracts see as its bytes.
ghost use Rattle.std.specs.Prelude.{◌≡◌, IfOk, option_map, string_bytes};
ghost use Rattle.cm_words_arguments.specs.Options.{path_or};

use std::alloc::{AllocError, Global};
use std::marker::Model;

/// A text, such as a path. Contracts see it as the list of its bytes.
#[derive(Debug, Drop)]
pub struct Text {
    text: String,
}

impl Model for Text {
    ghost use Rattle.std.specs.Prelude.{List, ℕ, string_bytes};

    ghost Value = { List ℕ };

    ghost view = { λ a. string_bytes a.text };
}

impl Text {
    /// Wraps a text. It takes no memory.
    pub fn new(text: String) -> Text
        ensures bytes { result ≡ string_bytes text }
    {
        Text { text }
    }

    /// Lends the text.
    pub fn as_str(&self) -> &str
        ensures bytes { result.now ≡ self.now }
    {
        self.text.as_str()
    }
}

/// A text of its own. It fails if memory runs out.
pub fn copy(alloc: Global, text: &str) -> Result<Text, AllocError>
    ensures { IfOk result (λ t. t ≡ text.now) }
{
    Ok(Text::new(String::from_str(alloc, text)?))
}

/// The path that is given, or else that of the keys file with this ending. It fails if memory runs out.
pub fn path_or(
    alloc: Global,
    given: Option<&str>,
    keys: &str,
    ending: &str,
) -> Result<Text, AllocError>
    ensures path { IfOk result (λ t. t ≡ path_or (option_map (λ s. s.now) given.entry) keys.now ending.now) }
{
    match given {
        Some(path) => copy(alloc, path),
        None => {
            let mut path = String::from_str(alloc, keys)?;
            path.push_str(ending)?;
            Ok(Text::new(path))
        }
    }
}
