//! Reasons: the text behind a code in a status line.
ghost use Rattle.std.specs.Prelude.{◌≡◌, ℕ, List, Some, true};
ghost use Rattle.std.specs.Option.{option_map};
ghost use Rattle.rtsp_status.specs.Reasons.{fits_line, has_reason, reason_of};

/// The most bytes of a reason.
pub const LONGEST_REASON: usize = 40;

/// The reason of a code that has one, as it stands in a status line (RFC 2326, 7.1.1).
pub fn reason(code: u16) -> &'static str
    requires { has_reason code ≡ true }
    ensures { Some (result.now) ≡ reason_of code }
{
    find_reason(code).unwrap()
}

/// The reason of a code, where it has one.
fn find_reason(code: u16) -> Option<&'static str>
    ensures { option_map (λ text. text.now) result ≡ reason_of code }
{
    let text = match code {
        200 => "OK",
        400 => "Bad Request",
        403 => "Forbidden",
        404 => "Not Found",
        405 => "Method Not Allowed",
        406 => "Not Acceptable",
        408 => "Request Time-out",
        410 => "Gone",
        411 => "Length Required",
        412 => "Precondition Failed",
        413 => "Request Entity Too Large",
        414 => "Request-URI Too Large",
        415 => "Unsupported Media Type",
        451 => "Parameter Not Understood",
        452 => "Conference Not Found",
        453 => "Not Enough Bandwidth",
        454 => "Session Not Found",
        455 => "Method Not Valid in This State",
        456 => "Header Field Not Valid for Resource",
        457 => "Invalid Range",
        458 => "Parameter Is Read-Only",
        459 => "Aggregate operation not allowed",
        460 => "Only aggregate operation allowed",
        461 => "Unsupported transport",
        462 => "Destination unreachable",
        465 => "Notification Reason Unknown",
        500 => "Internal Server Error",
        501 => "Not Implemented",
        502 => "Bad Gateway",
        503 => "Service Unavailable",
        504 => "Gateway Time-out",
        505 => "RTSP Version not supported",
        551 => "Option not supported",
        _ => return None,
    };
    Some(text)
}

/// A code with a reason has three digits, and its reason has [`LONGEST_REASON`] bytes at most, spaces
/// and visible bytes of ASCII alone: both stand in one status line.
pub fn reasons_fit_a_status_line()
    ensures { (code : ℕ) (text : List ℕ) → reason_of code ≡ Some text → fits_line code text ≡ true }
{}
