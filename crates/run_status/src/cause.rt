//! The text that tells why the connection to the server ended.
ghost use Rattle.std.specs.Prelude.{◌≡◌, ◌≤◌, ◌++◌, Some, None, codes, length};
ghost use Rattle.run_status.specs.declared.cause.TheConstants.{LONGEST_CAUSE};
ghost use Rattle.run_status.specs.CauseTexts.{bad_name, framing_name, fault_text, number_text};

use gateway_claim::{FramingFault, UpCause};
use rtsp_head::BadKind;
use std::fmt;

/// The most bytes of a cause's words, without the number behind them.
pub const LONGEST_CAUSE: usize = 15;

/// The text of a cause: its words, and the number behind them.
#[derive(Clone, Copy)]
pub struct CauseText {
    /// The words. They end with a space where a number follows.
    pub words: &'static str,
    /// The number, where the cause has one.
    pub number: Option<u32>,
}

/// The text of a cause (this project's own): the body of the record of a fault, and the end of the fault line.
pub fn cause_text(cause: UpCause) -> CauseText
    ensures text { result.words.now ++ number_text result.number ≡ fault_text cause }
    ensures short { length result.words.now ≤ LONGEST_CAUSE }
{
    match cause {
        UpCause::Framing(fault) => plain(framing_words(fault)),
        UpCause::UnknownReply(number) => numbered("UnknownReply ", number),
        UpCause::BadGrant(number) => numbered("BadGrant ", number),
        UpCause::SessionTaken(number) => numbered("SessionTaken ", number),
        UpCause::CseqSpent => plain("CseqSpent"),
        UpCause::UpFull => plain("UpFull"),
        UpCause::Ended => plain("Ended"),
        UpCause::ReadFault => plain("ReadFault"),
        UpCause::WriteFault => plain("WriteFault"),
    }
}

/// Words without a number.
fn plain(words: &'static str) -> CauseText
    ensures words { result.words.now ≡ words.now }
    ensures number { result.number ≡ None }
{
    CauseText {
        words,
        number: None,
    }
}

/// Words with this number behind them.
fn numbered(words: &'static str, number: u32) -> CauseText
    ensures words { result.words.now ≡ words.now }
    ensures number { result.number ≡ Some number }
{
    CauseText {
        words,
        number: Some(number),
    }
}

/// The words for an item of the server that can't be taken.
fn framing_words(fault: FramingFault) -> &'static str
    ensures words { result.now ≡ codes "Framing " ++ framing_name fault }
    ensures short { length result.now ≤ LONGEST_CAUSE }
{
    match fault {
        FramingFault::Bad(kind) => bad_words(kind),
        FramingFault::Version => "Framing Version",
        FramingFault::Cseq => "Framing Cseq",
    }
}

/// The words for an item of the server that can't be read.
fn bad_words(kind: BadKind) -> &'static str
    ensures words { result.now ≡ codes "Framing " ++ bad_name kind }
    ensures short { length result.now ≤ LONGEST_CAUSE }
{
    match kind {
        BadKind::Head => "Framing Head",
        BadKind::Control => "Framing Control",
        BadKind::Start => "Framing Start",
        BadKind::Colon => "Framing Colon",
        BadKind::Name => "Framing Name",
        BadKind::Many => "Framing Many",
        BadKind::Length => "Framing Length",
        BadKind::Body => "Framing Body",
    }
}

// The words, and the number in decimal digits.
impl fmt::Display for CauseText {
    ghost output = { λ text. Some (text.words.now ++ number_text text.number) };

    fn fmt<W: fmt::Write>(&self, f: &mut fmt::Formatter<W>) -> fmt::Result {
        match self.number {
            Some(number) => write!(f, "{}{number}", self.words),
            None => write!(f, "{}", self.words),
        }
    }
}
