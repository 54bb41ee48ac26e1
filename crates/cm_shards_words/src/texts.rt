//! Texts that contracts see as the list of their bytes.
ghost use Rattle.std.specs.Prelude.{◌≡◌, IfOk, map, option_map};

use cm_words_arguments::{Text, copy};
use std::alloc::{AllocError, Global};
use std::marker::Model;

/// Texts in their order, such as paths. Contracts see them as the list of their bytes.
#[derive(Debug, Drop)]
pub struct Texts {
    texts: Vec<Text>,
}

impl Model for Texts {
    ghost use Rattle.std.specs.Prelude.{List, ℕ};

    ghost Value = { List (List ℕ) };

    ghost view = { λ a. a.texts.items };
}

impl Texts {
    /// Wraps texts. It takes no memory.
    pub fn new(texts: Vec<Text>) -> Texts
        ensures texts { result ≡ texts.items }
    {
        Texts { texts }
    }

    /// Lends the texts.
    pub fn as_slice(&self) -> &[Text]
        ensures texts { result.now ≡ self.now }
    {
        self.texts.as_slice()
    }
}

/// A text of its own, if there is one. It fails if memory runs out.
pub fn copy_option(alloc: Global, text: Option<&str>) -> Result<Option<Text>, AllocError>
    ensures { IfOk result (λ t. t ≡ option_map (λ s. s.now) text.entry) }
{
    match text {
        Some(text) => Ok(Some(copy(alloc, text)?)),
        None => Ok(None),
    }
}

/// Texts of their own, in the same order. It fails if memory runs out.
pub fn copy_all(alloc: Global, texts: &[&str]) -> Result<Texts, AllocError>
    ensures { IfOk result (λ t. t ≡ map (λ s. s.now) texts.now) }
{
    let mut copies = Vec::with_capacity(alloc, texts.len())?;
    for text in texts {
        copies.push(copy(alloc, text)?)?;
    }
    Ok(Texts::new(copies))
}
