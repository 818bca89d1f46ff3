//! Tokens, blanks and comparison without case.
ghost use Rattle.std.specs.Prelude.{◌≡◌, length};
ghost use Rattle.gate_bytes.specs.Tokens.{is_token, is_blank, without_front, without_end, trimmed, equal_fold};

use crate::{after, before};

/// Whether two texts are equal without ASCII case.
#[inline(always)]
pub fn eq_fold(a: &[u8], b: &[u8]) -> bool
    ensures { result ≡ equal_fold a.now b.now }
{
    a.len() == b.len() && (a == b || eq_fold_halves(a, b))
}

/// The same, where both have one length. The later half is looked at first: the names of headers rather share a front. It is
/// not inlined, since few texts differ in case.
#[inline(never)]
fn eq_fold_halves(a: &[u8], b: &[u8]) -> bool
    requires { length a.now ≡ length b.now }
    ensures { result ≡ equal_fold a.now b.now }
{
    let half = a.len() / 2;
    eq_fold_whole(after(a, half), after(b, half)) && eq_fold_whole(before(a, half), before(b, half))
}

/// The same by one walk from the front.
fn eq_fold_whole(a: &[u8], b: &[u8]) -> bool
    ensures { result ≡ equal_fold a.now b.now }
{
    a.eq_ignore_ascii_case(b)
}

/// Whether a text is a token: one or more letters, digits or bytes of ``!#$%&'*+-.^_`|~``
/// (RFC 2326, 15.1; RFC 7826, 20.1). HTTP has the same tokens.
pub fn is_token(text: &[u8]) -> bool
    ensures { result ≡ is_token text.now }
{
    httparse::is_token(text)
}

/// The text without the spaces and tabs at both ends.
pub fn trim(text: &[u8]) -> &[u8]
    ensures { result.now ≡ trimmed text.now }
{
    trim_end(trim_front(text))
}

/// Whether a byte is a space or a tab.
fn is_blank(byte: u8) -> bool
    ensures { result ≡ is_blank byte }
{
    byte == b' ' || byte == b'\t'
}

/// The text without the spaces and tabs at its front.
fn trim_front(mut text: &[u8]) -> &[u8]
    ensures { result.now ≡ without_front text.entry.now }
{
    while let [first, more @ ..] = text {
        if !is_blank(*first) {
            break;
        }
        text = more;
    }
    text
}

/// The text without the spaces and tabs at its end.
fn trim_end(mut text: &[u8]) -> &[u8]
    ensures { result.now ≡ without_end text.entry.now }
{
    while let [more @ .., last] = text {
        if !is_blank(*last) {
            break;
        }
        text = more;
    }
    text
}
