//! What was written is read back. Each function does nothing: its contract is the law.
ghost use Rattle.std.specs.Prelude.{◌≡◌, ℕ, List, ◌∷◌, ◌++◌, Some};
ghost use Rattle.std.specs.Option.{option_map};
ghost use Rattle.rtsp_head.specs.Messages.{messages_of};
ghost use Rattle.head_one.specs.declared.reply.Reply1.{Reply1};
ghost use Rattle.head_one.specs.Replies.{reply_text, reply_message, client_reply, client_reply_in, IsReply};

/// A reply that was written is one message, and that message is read back as the reply: its code, its
/// number, its other headers and its body.
pub fn written_replies()
    ensures one { (reply : Reply1) → IsReply reply → client_reply_in (reply_text reply) ≡ Some reply }
    ensures told { (reply : Reply1) → IsReply reply → client_reply (reply_message reply) ≡ Some reply }
{}

/// Replies that are written in a row are read one by one: the first of the messages is the first reply,
/// and the others are those of the rest.
pub fn replies_in_a_row()
    ensures { (reply : Reply1) (rest : List ℕ) → IsReply reply
        → messages_of (reply_text reply ++ rest)
        ≡ option_map (λ more. reply_message reply ∷ more) (messages_of rest) }
{}
