//! A URI in its parts.
ghost use Rattle.std.specs.Prelude.{◌≡◌, ◌++◌, IfOk, OnOk, length, take, OnErr};

use gate_bytes::{Memory, Text};
use std::alloc::Global;
use std::marker::Model;

/// A URI in three parts, which are lent by what it is made of and stand one behind the other. Contracts see the URI.
#[derive(Drop)]
pub struct UriParts<'a> {
    /// The scheme with its slashes, where the authority was changed.
    pub(crate) scheme: &'a [u8],
    /// The authority, where it was changed.
    pub(crate) authority: &'a [u8],
    /// The rest, or all of a text that stays as it is.
    pub(crate) rest: &'a [u8],
}

impl<'a> Model for UriParts<'a> {
    ghost use Rattle.std.specs.Prelude.{ℕ, List, ◌++◌};

    ghost Value = { List ℕ };

    ghost view = { λ uri. uri.scheme.now ++ (uri.authority.now ++ uri.rest.now) };
}

impl<'a> UriParts<'a> {
    /// A text that stays as it is.
    pub fn whole(text: &'a [u8]) -> UriParts<'a>
        ensures { result ≡ text.now }
    {
        UriParts {
            scheme: b"",
            authority: b"",
            rest: text,
        }
    }

    /// The number of its bytes, or the most that a number says.
    fn room(&self) -> usize {
        self.scheme
            .len()
            .saturating_add(self.authority.len())
            .saturating_add(self.rest.len())
    }

    /// It as one text.
    pub fn to_text(&self, alloc: Global) -> Result<Text, Memory>
        ensures { IfOk result (λ text. text ≡ self.now) }
    {
        let mut text = Text::with_room(alloc, self.room())?;
        self.push_to(&mut text)?;
        Ok(text)
    }

    /// Appends it to a text. Where memory is wanting the text has a part of it at its end.
    #[tactic(auto, using(gate_bytes::proofs::FrontLemmas::front_kept))]
    pub fn push_to(&self, text: &mut Text) -> Result<(), Memory>
        ensures ok { OnOk result (text.new ≡ text.old ++ self.now) }
        ensures err { OnErr result (take (length text.old) text.new ≡ text.old) }
    {
        text.push_slice(self.scheme)?;
        text.push_slice(self.authority)?;
        text.push_slice(self.rest)
    }
}
