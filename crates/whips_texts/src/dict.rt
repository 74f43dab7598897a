//! Texts in the order of their bytes.
ghost use Rattle.std.specs.Prelude.{◌≡◌, ◌<◌, ◌≤◌, [], IfOk, OnOk, Some, length, slice_get};
ghost use Rattle.whips_texts.specs.Texts.{IsInOrder, rank, with_text};

use std::alloc::Global;
use std::collections::BTreeSet;
use std::marker::Model;
use whips_reading::Text;
use whips_rel::NoMemory;

/// Texts that are collected, in the order of their bytes, each once.
#[derive(Drop)]
pub(crate) struct TextSet<'a> {
    texts: BTreeSet<&'a str>,
}

impl<'a> Model for TextSet<'a> {
    ghost use Rattle.std.specs.Prelude.{ℕ, List, map};
    ghost use Rattle.std.specs.BTreeSet.{keys};

    ghost Value = { List (List ℕ) };

    ghost view = { λ s. map (λ t. t.now) (keys s.texts) };
}

impl<'a> TextSet<'a> {
    /// No text yet.
    pub(crate) fn new(alloc: Global) -> TextSet<'a>
        ensures { result ≡ [] }
    {
        TextSet {
            texts: BTreeSet::new(alloc),
        }
    }

    /// Puts the text at its place, unless it is there.
    pub(crate) fn add(&mut self, text: &'a str) -> Result<(), NoMemory>
        ensures { OnOk result (self.new ≡ with_text self.old text.now) }
    {
        self.texts.insert(text)?;
        Ok(())
    }
}

/// The texts of a document, in the order of their bytes, each once.
#[derive(Drop)]
pub struct Dict {
    texts: Vec<Text>,
}

impl Model for Dict {
    ghost use Rattle.std.specs.Prelude.{ℕ, List};
    ghost use Rattle.whips_texts.specs.Texts.{IsInOrder};

    ghost Value = { List (List ℕ) };

    ghost view = { λ d. d.texts.items };

    ghost invariant = { λ d. IsInOrder d.texts.items };
}

impl Dict {
    /// The texts that were collected.
    pub(crate) fn of(alloc: Global, set: &TextSet<'_>) -> Result<Dict, NoMemory>
        ensures { IfOk result (λ d. d ≡ set.now) }
    {
        let mut texts = Vec::new(alloc);
        for text in set.texts.iter() {
            texts.push(Text::of(alloc, text)?)?;
        }
        Ok(Dict { texts })
    }

    /// The number of texts. What every dictionary keeps is said here.
    pub fn len(&self) -> usize
        ensures len { result ≡ length self.now }
        ensures ordered { IsInOrder self.now }
    {
        self.texts.len()
    }

    /// The texts as a slice.
    pub fn as_slice(&self) -> &[Text]
        ensures { result.now ≡ self.now }
    {
        &self.texts
    }

    /// The code of the text: the number of texts before it.
    pub fn rank(&self, text: &str) -> u64
        ensures rank { result ≡ rank self.now text.now }
        ensures bound { result ≤ length self.now }
    {
        self.texts.partition_point(|other| other.as_str() < text) as u64
    }

    /// The text with this code.
    pub fn text(&self, code: u64) -> &str
        requires { code < length self.now }
        ensures { slice_get self.now code ≡ Some result.now }
    {
        self.texts[code as usize].as_str()
    }
}
