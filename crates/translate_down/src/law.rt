//! Laws over what players are told. Each holds by its contract alone: no call is made.
ghost use Rattle.std.specs.Prelude.{◌≡◌, ◌∷◌, ◌++◌, ℕ, List, Some, codes, filter};
ghost use Rattle.rtsp_head.specs.declared.header.Header.{Header};
ghost use Rattle.rtsp_head.specs.Headers.{field_of};
ghost use Rattle.rtsp_head.specs.Messages.{own_fields, messages_of};
ghost use Rattle.rtsp_head.specs.Optional.{field_headers};
ghost use Rattle.std.specs.Option.{option_map};
ghost use Rattle.head_one.specs.Replies.{reply_message, client_reply_in};
ghost use Rattle.session_one.specs.declared.parts.Asked.{Asked};
ghost use Rattle.translate_down.specs.Settings.{Setting};
ghost use Rattle.translate_down.specs.Readable.{CanBeRead};
ghost use Rattle.translate_down.specs.Replies.{Told, is_no_transport, public_value, success_fields, reply_down, reply_text_of};
ghost use Rattle.translate_down.specs.Sessions.{session_value, transport_value};
ghost use Rattle.translate_down.specs.Plays.{range_value, scale_value, info_value};
ghost use Rattle.translate_down.specs.Contents.{base_value, type_value, encoding_value};

/// The number, the body's length and Transport in the server's reply make no difference to what a
/// player is told.
pub fn only_told_fields_count()
    ensures own { (setting : Setting) (asked : Asked) (code : ℕ) (body : List ℕ) (headers : List Header)
        → reply_text_of setting asked (record { code = code; fields = own_fields headers; body = body })
        ≡ reply_text_of setting asked (record { code = code; fields = headers; body = body }) }
    ensures untransported { (setting : Setting) (asked : Asked) (code : ℕ) (body : List ℕ)
        (headers : List Header)
        → reply_text_of setting asked
        (record { code = code; fields = filter is_no_transport headers; body = body })
        ≡ reply_text_of setting asked (record { code = code; fields = headers; body = body }) }
{}

/// Each header of a success is told by its value, and is missing where it has none.
pub fn each_header_is_told()
    ensures session { (setting : Setting) (asked : Asked) (told : Told)
        → field_of (field_headers (success_fields setting asked told)) (codes "Session")
        ≡ session_value setting asked }
    ensures transport { (setting : Setting) (asked : Asked) (told : Told)
        → field_of (field_headers (success_fields setting asked told)) (codes "Transport")
        ≡ transport_value setting asked.method }
    ensures range { (setting : Setting) (asked : Asked) (told : Told)
        → field_of (field_headers (success_fields setting asked told)) (codes "Range")
        ≡ range_value asked.method told.fields }
    ensures scale { (setting : Setting) (asked : Asked) (told : Told)
        → field_of (field_headers (success_fields setting asked told)) (codes "Scale")
        ≡ scale_value asked.method told.fields }
    ensures info { (setting : Setting) (asked : Asked) (told : Told)
        → field_of (field_headers (success_fields setting asked told)) (codes "RTP-Info")
        ≡ info_value setting asked.method told.fields }
    ensures public { (setting : Setting) (asked : Asked) (told : Told)
        → field_of (field_headers (success_fields setting asked told)) (codes "Public")
        ≡ public_value asked.method }
    ensures base { (setting : Setting) (asked : Asked) (told : Told)
        → field_of (field_headers (success_fields setting asked told)) (codes "Content-Base")
        ≡ base_value setting asked.method told.fields told.body }
    ensures kind { (setting : Setting) (asked : Asked) (told : Told)
        → field_of (field_headers (success_fields setting asked told)) (codes "Content-Type")
        ≡ type_value asked.method told.fields told.body }
    ensures encoding { (setting : Setting) (asked : Asked) (told : Told)
        → field_of (field_headers (success_fields setting asked told)) (codes "Content-Encoding")
        ≡ encoding_value asked.method told.fields told.body }
{}

/// What a player gets is one reply, with the code, the number, the headers and the body that are
/// told: nothing that the server wrote ends a line before its time, or begins another reply. What is
/// written behind it is read as the messages after it.
pub fn told_replies_are_read()
    ensures one { (setting : Setting) (asked : Asked) (told : Told) → CanBeRead setting asked told
        → client_reply_in (reply_text_of setting asked told) ≡ Some (reply_down setting asked told) }
    ensures row { (setting : Setting) (asked : Asked) (told : Told) (rest : List ℕ)
        → CanBeRead setting asked told
        → messages_of (reply_text_of setting asked told ++ rest)
        ≡ option_map (λ more. reply_message (reply_down setting asked told) ∷ more) (messages_of rest) }
{}
