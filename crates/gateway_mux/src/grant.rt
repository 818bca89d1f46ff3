//! What the server grants to a SETUP.
ghost use Rattle.std.specs.Prelude.{◌≡◌, ◌<◌};
ghost use Rattle.std.specs.Option.{option_copied, option_and_then};
ghost use Rattle.channel_map.specs.declared.map.TheConstants.{PAIRS};
ghost use Rattle.up_books.specs.Ids.{holder_of};
ghost use Rattle.gateway_claim.specs.Books.{id_said};
ghost use Rattle.client_machine.specs.UpTexts.{grant_said};
ghost use Rattle.gateway_claim.specs.Follows.{is_session_for};
ghost use Rattle.gateway_mux.specs.WrongGrants.{is_taken_by, grants_that, wrong_grant};

use gateway_claim::UpCause;
use head_two::Reply2;
use rtsp_small::read_session;
use rtsp_transport::Grant;
use up_books::SessionBook;

/// The id of the session that a reply says.
pub(crate) fn id_said<'a>(reply: &'a Reply2<'_>) -> Option<&'a [u8]>
    ensures { option_copied result ≡ id_said reply.now }
{
    let value = reply.head.field(b"Session")?;
    Some(read_session(value)?.id)
}

/// The source that a grant names.
pub(crate) fn source_in(grant: Option<Grant>) -> Option<u32>
    ensures { result ≡ option_and_then (λ grant. grant.ssrc) grant }
{
    grant?.ssrc
}

/// Whether a grant is of this pair of channels.
fn grants(pair: u8, grant: Option<Grant>) -> bool
    requires { pair < PAIRS }
    ensures { result ≡ grants_that pair grant }
{
    match grant {
        Some(grant) => grant.pair.rtp == 2 * pair && grant.pair.rtcp == 2 * pair + 1,
        None => false,
    }
}

/// Whether what a reply says is the session that a SETUP named, or a new one where it named none.
fn is_session_for(session: Option<&[u8]>, said: Option<&[u8]>) -> bool
    ensures { result ≡ is_session_for (option_copied session.entry) (option_copied said.entry) }
{
    let Some(said) = said else {
        return false;
    };
    match session {
        Some(session) => session == said,
        None => true,
    }
}

/// Whether some connection has a session.
fn is_taken(sessions: &SessionBook, said: Option<&[u8]>) -> bool
    ensures { result ≡ is_taken_by (λ id. holder_of sessions.now id) (option_copied said.entry) }
{
    match said {
        Some(id) => sessions.owner(id).is_some(),
        None => false,
    }
}

/// What is wrong with the success of a SETUP, where something is. It named this session, and the reply
/// grants this.
pub(crate) fn wrong_grant(
    sessions: &SessionBook,
    pair: u8,
    session: Option<&[u8]>,
    grant: Option<Grant>,
    reply: &Reply2<'_>,
) -> Option<UpCause>
    requires low { pair < PAIRS }
    requires grant { grant ≡ grant_said reply.now }
    ensures { result
        ≡ wrong_grant (λ id. holder_of sessions.now id) pair (option_copied session.entry) reply.now }
{
    let said = id_said(reply);
    if !grants(pair, grant) || !is_session_for(session, said) {
        return Some(UpCause::BadGrant(reply.cseq));
    }
    if session.is_none() && is_taken(sessions, said) {
        return Some(UpCause::SessionTaken(reply.cseq));
    }
    None
}
