//! The decision on a request: what it may be, and how it is come to.
ghost use Rattle.std.specs.Prelude.{◌≡◌, List, codes, false, IfOk};
ghost use Rattle.session_one.specs.declared.parts.Track.{Track};
ghost use Rattle.rtsp_head.specs.Shapes.{shape_of};
ghost use Rattle.translate_up.specs.Views.{given_of, judged_by, tracks_shown};
ghost use Rattle.translate_up.specs.Fields.{field, said_of};
ghost use Rattle.translate_up.specs.Decisions.{decide, decide_request, is_for_gateway};

use crate::accept::serve;
use crate::answer::{answer, options_text, refusal_text};
use crate::field::SaidFields;
use crate::rule::check_rules;
use crate::subject::Subject;
use crate::upward::uri_up;
use crate::view::View;
use gate_bytes::{Memory, Text};
use head_one::{Request1, RequestFault, read_request};
use head_two::Request2;
use rtsp_head::Item;
use rtsp_small::Method;
use rtsp_transport::Pair;
use session_one::{Asked, Play};
use std::alloc::Global;

/// What becomes of a request. What goes up is lent by the request and by the session's id.
#[derive(Drop)]
pub enum Decision<'a> {
    /// The gateway answers it with this text.
    Answer(Text),
    /// It goes up, and this is kept for the reply.
    Forward(Request2<'a>, Asked),
    /// It waits until what plays has ended, and is answered with this text at once.
    Queue(Play, Text),
    /// It goes up as a SETUP once [`crate::with_transport`] has put its channels to the server in;
    /// this is kept for the reply, and the player gets these channels on its own connection.
    Setup(Request2<'a>, Asked, Pair),
}

/// What becomes of a request of a player that has none open. The first rule that applies refuses it;
/// what none refuses is answered, waits, or goes up.
///
/// The rules on its head come first. Then a request is refused with 454 where it names a session that
/// its player does not have, or none where it needs one; 455 where the table of states has no row for
/// it, where its player has as many sessions as may be, or where a stream would be set up again; 460
/// where it names one of several streams that are played together; 461 where no channels can be given to it; 457 where its range is of no use; 453
/// where all channels to the server are held; 503 where its session has all its streams, or where as
/// many PLAYs wait as may.
pub fn decide<'a>(
    alloc: Global,
    view: &View<'a, '_>,
    item: &'a Item,
) -> Result<Decision<'a>, Memory>
    ensures { IfOk result (λ decision. decision ≡ decide (given_of view.now) (shape_of item.now)) }
{
    match read_request(alloc, item) {
        Ok(request) => decide_request(alloc, view, &request),
        Err(RequestFault::Refused(refusal)) => Ok(Decision::Answer(refusal_text(alloc, refusal)?)),
        Err(RequestFault::Memory) => Err(Memory),
    }
}

/// What becomes of a request that its head does not refuse. No rule refuses one for the gateway itself,
/// so its URI is not looked at.
fn decide_request<'a>(
    alloc: Global,
    view: &View<'a, '_>,
    request: &Request1<'a>,
) -> Result<Decision<'a>, Memory>
    ensures { IfOk result (λ decision.
        decision
        ≡ decide_request (judged_by (given_of view.now) (field request.now (codes "Session"))) request.now) }
{
    if is_for_gateway(request) {
        return Ok(Decision::Answer(options_text(alloc, request.cseq)?));
    }
    decide_for_server(alloc, view, request)
}

/// What becomes of a request that is not for the gateway itself.
#[inline(never)]
fn decide_for_server<'a>(
    alloc: Global,
    view: &View<'a, '_>,
    request: &Request1<'a>,
) -> Result<Decision<'a>, Memory>
    requires { is_for_gateway request.now.method (said_of (tracks_shown view.now.sessions.now) request.now) ≡ false }
    ensures { IfOk result (λ decision.
        decision
        ≡ decide_request (judged_by (given_of view.now) (field request.now (codes "Session"))) request.now) }
{
    let said = SaidFields::read(view.sessions, request);
    let subject = Subject::named(view, said.session);
    let uri = uri_up(alloc, &subject, &request.uri)?;
    match check_rules(&subject, request.method, &said, uri.text.as_bytes()) {
        Ok(admission) => serve(alloc, &subject, request, &said, uri, admission),
        Err(code) => Ok(Decision::Answer(answer(alloc, code, Some(request.cseq))?)),
    }
}

/// Whether a request is for the gateway itself: OPTIONS without a session.
fn is_for_gateway(request: &Request1<'_>) -> bool
    ensures { (tracks : List Track) → result ≡ is_for_gateway request.now.method (said_of tracks request.now) }
{
    matches!(request.method, Method::Options) && request.head.field(b"Session").is_none()
}
