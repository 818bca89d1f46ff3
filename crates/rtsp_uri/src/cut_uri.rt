//! A URI that is cut once.
ghost use Rattle.std.specs.Prelude.{◌≡◌, IfSome, is_some, length};
ghost use Rattle.rtsp_uri.specs.Uris.{places_of, Stand};

use crate::grammar::{UriPlaces, cut};
use std::marker::Model;

/// A text that may be a URI, with the places of its parts, which are looked for once. Contracts see the text.
#[derive(Drop)]
pub struct CutUri<'a> {
    text: &'a [u8],
    places: Option<UriPlaces>,
}

impl<'a> Model for CutUri<'a> {
    ghost use Rattle.std.specs.Prelude.{◌≡◌, ℕ, List, IfSome, length};
    ghost use Rattle.rtsp_uri.specs.Uris.{places_of, Stand};

    ghost Value = { List ℕ };

    ghost view = { λ uri. uri.text.now };

    ghost invariant = { λ uri. (uri.places ≡ places_of uri.text.now)
        × IfSome uri.places (λ found. Stand found (length uri.text.now)) };
}

impl<'a> CutUri<'a> {
    /// A text, and where the parts of a URI end in it.
    pub fn new(text: &'a [u8]) -> CutUri<'a>
        ensures { result ≡ text.now }
    {
        CutUri {
            text,
            places: cut(text),
        }
    }

    /// The text.
    pub fn text(&self) -> &'a [u8]
        ensures { result.now ≡ self.now }
    {
        self.text
    }

    /// Where its parts end, where it is a URI.
    pub(crate) fn places(&self) -> Option<UriPlaces>
        ensures places { result ≡ places_of self.now }
        ensures within { IfSome result (λ found. Stand found (length self.now)) }
    {
        self.places
    }

    /// Whether the text is a URI (RFC 2326, 3.2; RFC 3986, 3).
    pub fn is_uri(&self) -> bool
        ensures { result ≡ is_some (places_of self.now) }
    {
        self.places.is_some()
    }
}
