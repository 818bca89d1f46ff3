//! What a program tells of its cases.

use crate::{CaseFault, push_hex, push_records, push_shown};
use gate_bytes::{Memory, Text, push_decimal};
use std::alloc::Global;
use std::fmt;

/// A text that grows, whose calls have no way out of their own: the first fault is kept, and told at the end by
/// [`done`](CaseAnswer::done).
#[derive(Drop)]
pub struct CaseAnswer {
    text: Text,
    fault: Option<CaseFault>,
}

impl CaseAnswer {
    /// The empty answer.
    pub fn new(alloc: Global) -> CaseAnswer {
        CaseAnswer {
            text: Text::new(alloc),
            fault: None,
        }
    }

    /// Keeps a fault, where there is none yet.
    pub fn fail(&mut self, fault: CaseFault) {
        if self.fault.is_none() {
            self.fault = Some(fault);
        }
    }

    /// Keeps that what a line says has no meaning.
    pub fn unreadable(&mut self) {
        self.fail(CaseFault::Unreadable);
    }

    /// Keeps that memory was wanting, where it was.
    fn keep(&mut self, appended: Result<(), Memory>) {
        if appended.is_err() {
            self.fail(CaseFault::Memory);
        }
    }

    /// Appends bytes.
    pub fn push(&mut self, bytes: &[u8]) {
        let appended = self.text.push_slice(bytes);
        self.keep(appended);
    }

    /// Appends a number in decimal.
    pub fn push_number(&mut self, number: u64) {
        let appended = push_decimal(&mut self.text, number);
        self.keep(appended);
    }

    /// Appends a text that means these bytes.
    pub fn push_shown(&mut self, bytes: &[u8]) {
        let appended = push_shown(&mut self.text, bytes);
        self.keep(appended);
    }

    /// Appends bytes in hexadecimal.
    pub fn push_hex(&mut self, bytes: &[u8]) {
        let appended = push_hex(&mut self.text, bytes);
        self.keep(appended);
    }

    /// Appends a line for each of these entries or records.
    pub fn push_records(&mut self, records: &[u8]) {
        let appended = push_records(&mut self.text, records);
        self.keep(appended);
    }

    /// Appends a value in the words of its type.
    pub fn push_debug<T: fmt::Debug>(&mut self, alloc: Global, value: &T) {
        match format!(in alloc; "{value:?}") {
            Ok(words) => self.push(words.as_bytes()),
            Err(_full) => self.fail(CaseFault::Memory),
        }
    }

    /// Appends a value as its type shows it.
    pub fn push_display<T: fmt::Display>(&mut self, alloc: Global, value: &T) {
        match format!(in alloc; "{value}") {
            Ok(words) => self.push(words.as_bytes()),
            Err(_full) => self.fail(CaseFault::Memory),
        }
    }

    /// The bytes that were appended.
    pub fn as_bytes(&self) -> &[u8] {
        self.text.as_bytes()
    }

    /// The first fault, where one was kept.
    pub fn fault(&self) -> Option<CaseFault> {
        self.fault
    }

    /// The text, where nothing failed.
    pub fn done(self) -> Result<Text, CaseFault> {
        match self.fault {
            None => Ok(self.text),
            Some(fault) => Err(fault),
        }
    }
}
