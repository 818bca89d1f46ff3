//! What a reply tells of the player's session.
ghost use Rattle.std.specs.Prelude.{◌≡◌, ◌<◌, ◌^◌, true, IfOk, IfSome};
ghost use Rattle.rtsp_small.specs.declared.session.TheConstants.{TIMEOUT_DIGITS};
ghost use Rattle.rtsp_small.specs.Sessions.{is_session_id, session_text};
ghost use Rattle.translate_down.specs.Settings.{setting_of, CanBeTold};
ghost use Rattle.translate_down.specs.Sessions.{tells_session, told_timeout, session_value, transport_value};

use crate::Context;
use gate_bytes::{Memory, Text};
use rtsp_head::FieldValue;
use rtsp_small::{Method, write_session};
use rtsp_transport::write_one;
use session_one::Asked;
use std::alloc::Global;

/// The value of Session: the id, and with SETUP the timeout where there is one.
pub(crate) fn session<'a>(
    alloc: Global,
    context: &Context<'a>,
    asked: &Asked,
) -> Result<Option<FieldValue<'a>>, Memory>
    requires { CanBeTold (setting_of context.now) }
    ensures { IfOk result (λ value. value ≡ session_value (setting_of context.now) asked.now) }
{
    match context.session {
        Some(id) if tells_session(asked) => {
            let timeout = told_timeout(asked.method, context.timeout);
            Ok(Some(session_field(alloc, id, timeout)?))
        }
        _ => Ok(None),
    }
}

/// A Session field with this id, which is lent where there is no timeout.
fn session_field(alloc: Global, id: &[u8], timeout: Option<u64>) -> Result<FieldValue<'_>, Memory>
    requires id { is_session_id id.now ≡ true }
    requires timeout { IfSome timeout (λ seconds. seconds < 10 ^ TIMEOUT_DIGITS) }
    ensures { IfOk result (λ value. value ≡ session_text (record { id = id.now; timeout = timeout })) }
{
    match timeout {
        Some(_) => Ok(FieldValue::owned(write_session(alloc, id, timeout)?)),
        None => Ok(FieldValue::new(id)),
    }
}

/// Whether the reply to a request tells the session.
fn tells_session(asked: &Asked) -> bool
    ensures { result ≡ tells_session asked.now }
{
    match asked.method {
        Method::Setup => true,
        Method::Teardown => false,
        _ => asked.named,
    }
}

/// The timeout that is told in the reply to a request with this method.
fn told_timeout(method: Method, timeout: Option<u64>) -> Option<u64>
    ensures { result ≡ told_timeout method timeout }
{
    match method {
        Method::Setup => timeout,
        _ => None,
    }
}

/// The value of Transport with SETUP: the player's channels, and the source where it is known.
pub(crate) fn transport(
    alloc: Global,
    context: &Context<'_>,
    method: Method,
) -> Result<Option<Text>, Memory>
    requires { CanBeTold (setting_of context.now) }
    ensures { IfOk result (λ value. value ≡ transport_value (setting_of context.now) method) }
{
    match context.client {
        Some(pair) if method == Method::Setup => { Ok(Some(write_one(alloc, pair, context.ssrc)?)) }
        _ => Ok(None),
    }
}
