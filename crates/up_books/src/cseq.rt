//! The numbers of open requests (RFC 7826, 18.20).
ghost use Rattle.std.specs.Prelude.{◌≡◌, ◌==◌, ◌+◌, ◌-◌, ◌*◌, ◌^◌, ◌<◌, ◌≤◌, ℕ, length, None, Some, is_some, slice_index_or, OnOk, OnErr, IfOk, if◌then◌else◌};
ghost use Rattle.up_books.specs.declared.cseq.TheConstants.{LAST_NUMBER};
ghost use Rattle.up_books.specs.declared.entry.BookEntry.{BookEntry};

use crate::entry::BookEntry;
use gate_bytes::{Memory, Steps};
use rtsp_small::LAST_CSEQ_TWO;
use std::alloc::Global;
use std::cmp::Ordering;
use std::marker::{Brand, Model};
use std::sync::ledger::{Blank, Ledger};

/// The last number of a request: the largest of nine digits (RFC 7826, 20.2.3).
pub const LAST_NUMBER: u32 = LAST_CSEQ_TWO;

/// All numbers were issued.
#[derive(Clone, Copy, Debug, PartialEq, Eq)]
pub struct Spent;

/// The open requests by their numbers, which rise, and the last number that was issued. Spare is the
/// number of further requests that need no memory.
#[derive(Drop)]
pub struct CseqBook {
    issued: u32,
    spare: usize,
    loans: Vec<BookEntry<u32>>,
}

impl Model for CseqBook {
    ghost use Rattle.up_books.specs.Numbers.{IssuedNumbers, IsNumbers};
    ghost use Rattle.std.specs.Prelude.{◌+◌, ◌≤◌, vec_len, vec_capacity};

    ghost Value = { IssuedNumbers };

    ghost view = { λ book. record { issued = book.issued; spare = book.spare; loans = book.loans.items } };

    ghost invariant = { λ book. IsNumbers book.issued book.loans.items × (vec_len book.loans + book.spare ≤ vec_capacity book.loans) };
}

impl CseqBook {
    ghost use Rattle.std.specs.Prelude.{position};
    ghost use Rattle.std.specs.Result.{result_ok};
    ghost use Rattle.up_books.specs.Numbers.{asker_of, next_number};

    /// The book in which `first` is the next number. It takes no memory, and nothing is spare.
    pub fn starting(alloc: Global, first: u32) -> CseqBook
        requires low { 0 < first }
        requires high { first ≤ LAST_NUMBER }
        ensures issued { result.issued + 1 ≡ first }
        ensures spare { result.spare ≡ 0 }
        ensures open { (n : ℕ) → asker_of result n ≡ None }
    {
        CseqBook {
            issued: first - 1,
            spare: 0,
            loans: Vec::new(alloc),
        }
    }

    /// The last number that was issued, and 0 before the number 1.
    pub fn issued(&self) -> u32
        ensures number { result ≡ self.now.issued }
        ensures high { result ≤ LAST_NUMBER }
    {
        self.issued
    }

    /// The number that the next request will have. There is none where the last one was issued.
    pub fn next(&self) -> Option<u32>
        ensures { result ≡ next_number self.now.issued }
    {
        if self.issued == LAST_NUMBER {
            None
        } else {
            Some(self.issued + 1)
        }
    }

    /// Makes room for one request more.
    pub fn room(&mut self) -> Result<(), Memory>
        ensures ok { OnOk result (self.new ≡ record self.old { spare = self.old.spare + 1 }) }
        ensures err { OnErr result (self.new ≡ self.old) }
    {
        let spare = self.spare.checked_add(1).ok_or(Memory)?;
        self.loans.reserve(spare)?;
        self.spare = spare;
        Ok(())
    }

    /// Issues the next number to a connection that asks a request. It takes no memory, and uses one
    /// that is spare.
    pub fn issue(&mut self, conn: u32) -> Result<u32, Spent>
        requires { 0 < self.old.spare }
        ensures number { result_ok result ≡ next_number self.old.issued }
        ensures issued { IfOk result (λ number. self.new.issued ≡ number) }
        ensures spare { OnOk result (self.new.spare + 1 ≡ self.old.spare) }
        ensures open { IfOk result (λ number.
            (n : ℕ) → asker_of self.new n ≡ (if n == number then Some conn else asker_of self.old n)) }
        ensures err { OnErr result (self.new ≡ self.old) }
    {
        if self.issued == LAST_NUMBER {
            return Err(Spent);
        }
        let number = self.issued + 1;
        self.loans.push_reserved(BookEntry { key: number, conn });
        self.issued = number;
        self.spare -= 1;
        Ok(number)
    }

    /// The connection that asked an open request.
    pub fn owner(&self, number: u32) -> Option<u32>
        ensures { result ≡ asker_of self.now number }
    {
        let place = self.place(number)?;
        Some(self.loans[place].conn)
    }

    /// An open request has its final reply: the connection that asked it. Its place is spare again.
    pub fn settle(&mut self, number: u32) -> Option<u32>
        ensures asker { result ≡ asker_of self.old number }
        ensures issued { self.new.issued ≡ self.old.issued }
        ensures spare { self.new.spare ≡ (if is_some result then self.old.spare + 1 else self.old.spare) }
        ensures open { (n : ℕ) → asker_of self.new n ≡ (if n == number then None else asker_of self.old n) }
    {
        let place = self.place(number)?;
        let loan = self.loans.remove(place);
        self.spare += 1;
        Some(loan.conn)
    }

    /// Where an open request stands in the book, among the open ones by rising numbers. A step is one that
    /// was looked at: the book is halved until it is found.
    pub fn find<L: Ledger>(&self, number: u32, steps: &mut Steps<L>) -> Option<usize>
        ensures place { result ≡ position (λ loan. loan.key == number) self.now.loans }
        ensures open { is_some result ≡ is_some (asker_of self.now number) }
        ensures counted { steps.old ≤ steps.new }
        ensures cost { 2 ^ (steps.new - steps.old) ≤ 2 * length self.now.loans + 1 }
    {
        let mut low = 0;
        let mut high = self.loans.len();
        while low < high {
            let middle = low + (high - low) / 2;
            match self.look(middle, steps).cmp(&number) {
                Ordering::Less => low = middle + 1,
                Ordering::Equal => return Some(middle),
                Ordering::Greater => high = middle,
            }
        }
        None
    }

    /// The number of the open request at a place. One step.
    fn look<L: Ledger>(&self, place: usize, steps: &mut Steps<L>) -> u32
        requires { place < length self.now.loans }
        ensures number { (other : BookEntry ℕ) → (slice_index_or self.now.loans place other).key ≡ result }
        ensures steps { steps.new ≡ steps.old + 1 }
    {
        steps.add(1);
        self.loans[place].key
    }

    /// Where an open request stands, by a count of its own.
    fn find_counted<L: Ledger>(&self, number: u32, blank: Blank) -> Option<usize>
        requires name { blank.name ≡ L.name }
        requires parts { blank.parts ≡ L.parts }
        requires share { blank.parts ≡ 1 }
        ensures { result ≡ position (λ loan. loan.key == number) self.now.loans }
    {
        self.find(number, &mut Steps::<L>::new(blank))
    }

    /// Where an open request stands.
    fn place(&self, number: u32) -> Option<usize>
        ensures { result ≡ position (λ loan. loan.key == number) self.now.loans }
    {
        self.find_counted::<Brand>(number, Blank::new(1))
    }
}
