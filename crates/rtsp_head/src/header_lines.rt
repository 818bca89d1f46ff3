//! The headers of a head, line by line.
ghost use Rattle.std.specs.Prelude.{◌≡◌, Ok, IsOk, IfOk, OnOk, true, false};
ghost use Rattle.gate_bytes.specs.Tokens.{trimmed};
ghost use Rattle.rtsp_head.specs.Headers.{header_limit, continued, with_header, with_line, headers_in, no_headers};
ghost use Rattle.rtsp_head.specs.Views.{so_far, IsClosed};

use crate::further::goes_on;
use crate::{FieldValue, Header, Headers};
use gate_bytes::{Memory, split_once, trim};
use std::alloc::Global;

/// The headers of the lines so far. The next line may go on with the last one.
#[derive(Drop)]
pub(crate) struct Reading<'a> {
    pub(crate) headers: Headers<'a>,
    /// Whether the value of the last one was joined of several lines, so that it may have blanks at its ends.
    pub(crate) folded: bool,
}

impl<'a> Reading<'a> {
    /// No header yet.
    pub(crate) fn new(alloc: Global) -> Reading<'a>
        ensures none { so_far result ≡ no_headers }
        ensures closed { IsClosed result }
    {
        Reading {
            headers: Headers::new(alloc),
            folded: false,
        }
    }

    /// Reads one more line, in which there is no fault. Where memory is wanting the headers are of no use.
    #[inline(always)]
    pub(crate) fn take_line(&mut self, alloc: Global, line: &'a [u8]) -> Result<(), Memory>
        requires closed { IsClosed self.old }
        requires sound { IsOk (with_line header_limit (so_far self.old) line.now) }
        ensures ok { OnOk result
            (with_line header_limit (so_far self.old) line.now ≡ Ok (so_far self.new)) }
        ensures closed { OnOk result (IsClosed self.new) }
    {
        if goes_on(line) {
            return self.go_on(alloc, trim(line));
        }
        let Some((name, value)) = split_once(b':', line) else {
            unreachable!();
        };
        self.begin(alloc, name, trim(value))
    }

    /// Joins a text to the value of the last header by one space.
    #[inline(never)]
    fn go_on(&mut self, alloc: Global, text: &[u8]) -> Result<(), Memory>
        requires { IsOk (continued (so_far self.old) text.now (so_far self.old).last) }
        ensures ok { OnOk result
            (continued (so_far self.old) text.now (so_far self.old).last ≡ Ok (so_far self.new)) }
        ensures folded { OnOk result (self.new.folded ≡ true) }
    {
        let Some(field) = self.headers.pop() else {
            unreachable!();
        };
        self.headers.push(Header {
            name: field.name,
            value: field.value.with_more(alloc, text)?,
        })?;
        self.folded = true;
        Ok(())
    }

    /// Begins a header.
    #[inline(always)]
    fn begin(&mut self, alloc: Global, name: &'a [u8], value: &'a [u8]) -> Result<(), Memory>
        requires closed { IsClosed self.old }
        requires tidy { trimmed value.now ≡ value.now }
        requires room { IsOk (with_header header_limit (so_far self.old)
            (record { name = name.now; value = value.now })) }
        ensures ok { OnOk result
            (with_header header_limit (so_far self.old) (record { name = name.now; value = value.now })
            ≡ Ok (so_far self.new)) }
        ensures closed { OnOk result (IsClosed self.new) }
    {
        self.close_last(alloc)?;
        self.headers.push_read(Header {
            name,
            value: FieldValue::new(value),
        })?;
        Ok(())
    }

    /// Trims the value of the last header, where it was joined of several lines.
    #[inline(always)]
    fn close_last(&mut self, alloc: Global) -> Result<(), Memory>
        requires { IsClosed self.old }
        ensures headers { OnOk result (self.new.headers ≡ headers_in (so_far self.old)) }
        ensures folded { OnOk result (self.new.folded ≡ false) }
    {
        if !self.folded {
            return Ok(());
        }
        self.folded = false;
        self.headers.close_last(alloc)
    }

    /// All headers.
    pub(crate) fn finish(mut self, alloc: Global) -> Result<Headers<'a>, Memory>
        requires { IsClosed self }
        ensures { IfOk result (λ headers. headers ≡ headers_in (so_far self.entry)) }
    {
        self.close_last(alloc)?;
        Ok(self.headers)
    }
}
