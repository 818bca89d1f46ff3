//! Requests that no rule refuses: they wait, or go up.
ghost use Rattle.std.specs.Prelude.{◌≡◌, IsTrue, IfOk, IfSome, Some};
ghost use Rattle.rtsp_range.specs.Writable.{can_be_written};
ghost use Rattle.translate_up.specs.Subjects.{judged_seen};
ghost use Rattle.translate_up.specs.SeenFields.{said_seen, AdmitsWritable};
ghost use Rattle.translate_up.specs.Decisions.{serve, forward, play_in, play_on};

use crate::answer::play_text;
use crate::decision::Decision;
use crate::field::{SaidFields, scale_of, session_said};
use crate::rule::Admission;
use crate::subject::Subject;
use crate::upward::{UriUp, asked_of, request_up};
use gate_bytes::{Memory, Text};
use head_one::Request1;
use rtsp_range::{Range, write};
use session_one::{Play, State};
use std::alloc::Global;

/// What becomes of a request that no rule refuses and that is not for the gateway itself.
pub(crate) fn serve<'a>(
    alloc: Global,
    subject: &Subject<'_, 'a, '_>,
    request: &Request1<'a>,
    said: &SaidFields<'_>,
    uri: UriUp<'a>,
    admission: Admission,
) -> Result<Decision<'a>, Memory>
    requires { AdmitsWritable admission }
    ensures { IfOk result (λ decision.
        decision ≡ serve (judged_seen subject.now) request.now (said_seen said.now) uri.entry admission) }
{
    match admission {
        Admission::SetUp(pair) => {
            let asked = asked_of(subject, request, said, uri.text);
            let up = request_up(alloc, subject, request, said, uri.parts, None)?;
            Ok(Decision::Setup(up, asked, pair))
        }
        Admission::Played(range) => play(alloc, subject, request, said, uri, range),
        Admission::Other => forward(alloc, subject, request, said, uri, None),
    }
}

/// A PLAY goes up, unless streams play already.
fn play<'a>(
    alloc: Global,
    subject: &Subject<'_, 'a, '_>,
    request: &Request1<'a>,
    said: &SaidFields<'_>,
    uri: UriUp<'a>,
    range: Option<Range>,
) -> Result<Decision<'a>, Memory>
    requires { IfSome range (λ one. IsTrue (can_be_written one)) }
    ensures { IfOk result (λ decision.
        decision
        ≡ play_in (judged_seen subject.now).state (judged_seen subject.now) request.now (said_seen said.now) uri.entry range) }
{
    match subject.state {
        State::Playing => play_on(alloc, subject, request, said, uri, range),
        State::Init | State::Ready => forward(alloc, subject, request, said, uri, range),
    }
}

/// A request goes up with this range.
fn forward<'a>(
    alloc: Global,
    subject: &Subject<'_, 'a, '_>,
    request: &Request1<'a>,
    said: &SaidFields<'_>,
    uri: UriUp<'a>,
    range: Option<Range>,
) -> Result<Decision<'a>, Memory>
    requires { IfSome range (λ one. IsTrue (can_be_written one)) }
    ensures { IfOk result (λ decision.
        decision ≡ forward (judged_seen subject.now) request.now (said_seen said.now) uri.entry range) }
{
    let asked = asked_of(subject, request, said, uri.text);
    let up = request_up(alloc, subject, request, said, uri.parts, range)?;
    Ok(Decision::Forward(up, asked))
}

/// A PLAY while streams play waits with its range, and is answered at once; without a range it changes
/// nothing.
fn play_on<'a>(
    alloc: Global,
    subject: &Subject<'_, 'a, '_>,
    request: &Request1<'a>,
    said: &SaidFields<'_>,
    uri: UriUp<'a>,
    range: Option<Range>,
) -> Result<Decision<'a>, Memory>
    requires { IfSome range (λ one. IsTrue (can_be_written one)) }
    ensures { IfOk result (λ decision.
        decision ≡ play_on (judged_seen subject.now) request.now (said_seen said.now) uri.entry range) }
{
    let session = session_said(subject, said);
    let Some(range) = range else {
        let text = play_text(alloc, request.cseq, session, None)?;
        return Ok(Decision::Answer(text));
    };
    let written = write(alloc, &range)?;
    let text = play_text(alloc, request.cseq, session, Some(written))?;
    let scale = Text::copied(alloc, scale_of(request))?;
    let play = Play {
        uri: uri.text,
        range,
        scale,
        place: subject.place,
    };
    Ok(Decision::Queue(play, text))
}
