//! Requests of the server.
ghost use Rattle.std.specs.Prelude.{◌≡◌, true, codes, IfSome, IfOk};
ghost use Rattle.std.specs.Option.{option_copied};
ghost use Rattle.rtsp_head.specs.Headers.{field_of};
ghost use Rattle.rtsp_small.specs.Sessions.{is_session_id};
ghost use Rattle.up_books.specs.Ids.{holder_of};
ghost use Rattle.gateway_claim.specs.ServerItems.{session_named, notice_of, said_reason};
ghost use Rattle.gateway_mux.specs.NoticeParts.{notice_seen};

use head_two::Ask2;
use rtsp_small::{NotifyReason, read_reason, read_session};
use session_two::Names;
use up_books::SessionBook;

/// A notify of a session.
#[derive(Clone, Copy)]
pub(crate) struct Notice<'a> {
    /// The connection that has the session.
    pub conn: u32,
    /// The session's id.
    pub id: &'a [u8],
    /// Why it comes.
    pub reason: NotifyReason,
    /// The request that it names.
    pub names: Names,
}

/// Why a request of the server is refused.
#[derive(Clone, Copy, Debug, PartialEq, Eq)]
pub(crate) enum NoticeRefusal {
    /// It is no PLAY_NOTIFY.
    Method,
    /// It names no session that a connection has.
    Session,
    /// It does not say why it comes.
    NoReason,
    /// Why it comes is unknown.
    Reason,
}

impl NoticeRefusal {
    ghost use Rattle.std.specs.Prelude.{true};
    ghost use Rattle.rtsp_status.specs.Reasons.{has_reason};
    ghost use Rattle.gateway_mux.specs.NoticeParts.{refusal_code};

    /// The code that it is refused with.
    pub fn code(self) -> u16
        ensures code { result ≡ refusal_code self }
        ensures reason { has_reason result ≡ true }
    {
        match self {
            NoticeRefusal::Method => 501,
            NoticeRefusal::Session => 454,
            NoticeRefusal::NoReason => 400,
            NoticeRefusal::Reason => 465,
        }
    }
}

/// What a request of the server tells, or why it is refused.
pub(crate) fn read_notice<'a>(
    sessions: &SessionBook,
    ask: &'a Ask2<'_>,
) -> Result<Notice<'a>, NoticeRefusal>
    ensures told { notice_seen result ≡ notice_of (λ id. holder_of sessions.now id) ask.now }
    ensures valid { IfOk result (λ notice. is_session_id notice.id.now ≡ true) }
{
    if ask.method != b"PLAY_NOTIFY".as_slice() {
        return Err(NoticeRefusal::Method);
    }
    let Some(id) = session(ask) else {
        return Err(NoticeRefusal::Session);
    };
    let Some(conn) = sessions.owner(id) else {
        return Err(NoticeRefusal::Session);
    };
    told(ask, id, conn)
}

/// The session that it names.
fn session<'a>(ask: &'a Ask2<'_>) -> Option<&'a [u8]>
    ensures named { option_copied result ≡ session_named ask.now }
    ensures valid { IfSome result (λ id. is_session_id id.now ≡ true) }
{
    let value = ask.head.field(b"Session")?;
    Some(read_session(value)?.id)
}

/// What it tells the connection that has the session.
fn told<'a>(ask: &'a Ask2<'_>, id: &'a [u8], conn: u32) -> Result<Notice<'a>, NoticeRefusal>
    requires { is_session_id id.now ≡ true }
    ensures told { notice_seen result
        ≡ said_reason ask.now id.now conn (field_of ask.now.head.headers (codes "Notify-Reason")) }
    ensures valid { IfOk result (λ notice. is_session_id notice.id.now ≡ true) }
{
    let Some(value) = ask.head.field(b"Notify-Reason") else {
        return Err(NoticeRefusal::NoReason);
    };
    let Some(reason) = read_reason(value) else {
        return Err(NoticeRefusal::Reason);
    };
    Ok(Notice {
        conn,
        id,
        reason,
        names: Names::read(ask.head.field(b"Request-Status")),
    })
}
