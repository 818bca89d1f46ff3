//! The pool of texts.
ghost use Rattle.std.specs.Prelude.{◌≡◌, ◌≤◌, [], ◌++◌, length, zero, suc, IfOk};
ghost use Rattle.text_pool.specs.declared.pool.TheConstants.{MOST_TEXTS};

use gate_bytes::{Memory, Text};
use std::alloc::Global;
use std::marker::Model;
use std::mem;

/// The fewest bytes of a text that is kept (this project's own). What is shorter takes less memory than is saved.
pub const LEAST_KEPT: usize = 512;

/// The most bytes of a text that is kept (this project's own): more than a frame over Ethernet mostly has.
pub const MOST_KEPT: usize = 2_048;

/// How many texts a pool keeps at most (this project's own): more than one read of the server's link brings of frames
/// of 1,400 bytes.
pub const MOST_TEXTS: usize = 256;

/// Whether a text of so many bytes is kept, and made of one that was.
fn is_kept(bytes: usize) -> bool {
    LEAST_KEPT <= bytes && bytes <= MOST_KEPT
}

/// Texts that are done with. Contracts see how many there are.
#[derive(Drop)]
pub struct TextPool {
    texts: Vec<Text>,
    ghost few: { length texts.items ≤ MOST_TEXTS },
}

impl Model for TextPool {
    ghost use Rattle.std.specs.Prelude.{ℕ, length};

    ghost Value = { ℕ };

    ghost view = { λ pool. length pool.texts.items };
}

impl TextPool {
    /// An empty pool. It takes no memory.
    pub fn new(alloc: Global) -> TextPool
        ensures { result ≡ zero }
    {
        TextPool {
            texts: Vec::new(alloc),
        }
    }

    /// How many texts there are.
    pub fn len(&self) -> usize
        ensures { result ≡ self.now }
    {
        self.texts.len()
    }

    /// Keeps a text of [`LEAST_KEPT`] to [`MOST_KEPT`] bytes, where there are fewer than [`MOST_TEXTS`] and memory is not
    /// wanting. It is dropped otherwise.
    pub fn keep(&mut self, text: Text)
        ensures stay { self.old ≤ self.new }
        ensures one { self.new ≤ suc self.old }
    {
        if self.texts.len() < MOST_TEXTS && is_kept(text.len()) {
            let _ = self.texts.push(text);
        }
    }

    /// Keeps the texts of another pool, which has none then.
    pub fn keep_all(&mut self, other: &mut TextPool)
        ensures stay { self.old ≤ self.new }
        ensures none { other.new ≡ zero }
    {
        if self.texts.is_empty() {
            mem::swap(self, other);
            return;
        }
        while let Some(text) = other.texts.pop() {
            self.keep(text);
        }
    }

    /// Takes all texts of another pool in exchange for its own, where that one has more.
    pub fn refill(&mut self, other: &mut TextPool)
        ensures more { other.new ≤ self.new }
    {
        if self.len() < other.len() {
            mem::swap(self, other);
        }
    }

    /// An empty text for so many bytes.
    fn text(&mut self, alloc: Global, bytes: usize) -> Result<Text, Memory>
        ensures empty { IfOk result (λ text. text ≡ []) }
        ensures less { self.new ≤ self.old }
    {
        if !is_kept(bytes) {
            return Text::with_room(alloc, bytes);
        }
        match self.texts.pop() {
            Some(kept) => {
                let mut text = kept;
                text.truncate(0);
                Ok(text)
            }
            None => Text::with_room(alloc, bytes),
        }
    }

    /// A text with these bytes.
    pub fn copy(&mut self, alloc: Global, bytes: &[u8]) -> Result<Text, Memory>
        ensures copy { IfOk result (λ text. text ≡ bytes.now) }
        ensures less { self.new ≤ self.old }
    {
        let mut text = self.text(alloc, bytes.len())?;
        text.push_slice(bytes)?;
        Ok(text)
    }

    /// A text with the bytes of both, one behind the other.
    pub fn join(&mut self, alloc: Global, front: &[u8], back: &[u8]) -> Result<Text, Memory>
        ensures joined { IfOk result (λ text. text ≡ front.now ++ back.now) }
        ensures less { self.new ≤ self.old }
    {
        let mut text = self.text(alloc, front.len().saturating_add(back.len()))?;
        text.push_slice(front)?;
        text.push_slice(back)?;
        Ok(text)
    }
}
