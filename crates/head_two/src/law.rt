//! What was written is read back. Each function does nothing: its contract is the law.
ghost use Rattle.std.specs.Prelude.{◌≡◌, ◌<◌, ◌^◌, ◌∷◌, ◌++◌, true, ℕ, List, Option, Some, None, IfSome};
ghost use Rattle.std.specs.Option.{option_map};
ghost use Rattle.rtsp_head.specs.Messages.{messages_of};
ghost use Rattle.rtsp_head.specs.HeadText.{is_value};
ghost use Rattle.rtsp_status.specs.Reasons.{has_reason};
ghost use Rattle.rtsp_small.specs.declared.cseq.TheConstants.{CSEQ_TWO_DIGITS};
ghost use Rattle.head_two.specs.declared.request.Request2.{Request2};
ghost use Rattle.head_two.specs.Requests.{request_text, request_message, server_request, request_in, IsRequest};
ghost use Rattle.head_two.specs.Answers.{answer_text, answer_headers, answer_message, server_answer, answer_in};

/// A request that was written is one message, and that message is read back as the request: its number,
/// its other fields and its body.
pub fn written_requests()
    ensures one { (number : ℕ) (request : Request2) → IsRequest number request
        → request_in (request_text number request) ≡ Some (record { number = number; request = request }) }
    ensures told { (number : ℕ) (request : Request2) → IsRequest number request
        → server_request (request_message number request)
        ≡ Some (record { number = number; request = request }) }
{}

/// A request and what is written behind it are read one by one: the first of the messages is the request,
/// and the others are those of the rest.
pub fn requests_in_a_row()
    ensures { (number : ℕ) (request : Request2) (rest : List ℕ) → IsRequest number request
        → messages_of (request_text number request ++ rest)
        ≡ option_map (λ more. request_message number request ∷ more) (messages_of rest) }
{}

/// An answer that was written is one message, and that message is read back as the answer: its code, its
/// number and its session. It is no request.
pub fn written_answers()
    ensures one { (code cseq : ℕ) (session : Option (List ℕ)) → has_reason code ≡ true
        → cseq < 10 ^ CSEQ_TWO_DIGITS
        → IfSome session (λ id. is_value id ≡ true)
        → answer_in (answer_text code cseq session)
        ≡ Some (record { code = code; cseq = cseq; fields = answer_headers code session }) }
    ensures told { (code cseq : ℕ) (session : Option (List ℕ)) → has_reason code ≡ true
        → cseq < 10 ^ CSEQ_TWO_DIGITS
        → IfSome session (λ id. is_value id ≡ true)
        → server_answer (answer_message code cseq session)
        ≡ Some (record { code = code; cseq = cseq; fields = answer_headers code session }) }
    ensures no_request { (code cseq : ℕ) (session : Option (List ℕ))
        → server_request (answer_message code cseq session) ≡ None }
{}

/// An answer and what is written behind it are read one by one: the first of the messages is the answer,
/// and the others are those of the rest.
pub fn answers_in_a_row()
    ensures { (code cseq : ℕ) (session : Option (List ℕ)) (rest : List ℕ) → has_reason code ≡ true
        → cseq < 10 ^ CSEQ_TWO_DIGITS
        → IfSome session (λ id. is_value id ≡ true)
        → messages_of (answer_text code cseq session ++ rest)
        ≡ option_map (λ more. answer_message code cseq session ∷ more) (messages_of rest) }
{}
