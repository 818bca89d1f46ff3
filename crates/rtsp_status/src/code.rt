//! Codes: what one of RTSP 2.0 becomes for a player.
ghost use Rattle.std.specs.Prelude.{◌≡◌, ℕ, true};
ghost use Rattle.rtsp_status.specs.Codes.{code_one};
ghost use Rattle.rtsp_status.specs.Reasons.{has_reason};

/// The first code of success (RFC 2326, 7.1.1; RFC 7826, 17).
pub const FIRST_SUCCESS: u16 = 200;

/// The last code of success (RFC 2326, 7.1.1; RFC 7826, 17).
pub const LAST_SUCCESS: u16 = 299;

/// The code of RTSP 1.0 that the gateway tells a player where the server answered with this code of
/// RTSP 2.0. A number that is no code becomes what an unknown code becomes.
///
/// Each code of success becomes 200, and the other codes that RFC 2326 has stay. Every other code
/// becomes one that RFC 2326 has; no redirection is handed on, which is this project's own choice.
pub fn to_one(code: u16) -> u16
    ensures one { result ≡ code_one code }
    ensures reason { has_reason result ≡ true }
{
    match code {
        FIRST_SUCCESS..=LAST_SUCCESS => 200,
        400 | 403..=406 | 408 | 410..=415 | 451..=462 | 500..=505 | 551 => code,
        401 | 407 | 463 => 403,
        464 | 553 => 503,
        465 | 466 => 500,
        470..=472 => 502,
        400..=499 => 400,
        500..=599 => 500,
        _ => 502,
    }
}

/// Whatever code the server answers with, the one that the player is told has a reason.
pub fn told_codes_have_reasons()
    ensures { (code : ℕ) → has_reason (code_one code) ≡ true }
{}
