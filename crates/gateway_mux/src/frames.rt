//! Frames of media.
ghost use Rattle.std.specs.Prelude.{◌≡◌, ◌<◌, ◌^◌, length};
ghost use Rattle.rtsp_head.specs.Shapes.{shape_of};
ghost use Rattle.rtsp_head.specs.declared.item.ItemKind.TheVariants.{Frame};
ghost use Rattle.client_machine.specs.Frames.{channel_in, behind_channel, frame_text};

use gate_bytes::Text;
use rtsp_head::Item;

/// The channel of a frame, which is a short one.
pub(crate) fn channel_of(item: &Item) -> u8
    requires { item.now.kind ≡ Frame }
    ensures channel { result ≡ channel_in (shape_of item.now) }
    ensures short { length item.now.bytes < 2 ^ 31 }
{
    let bytes = item.bytes.as_bytes();
    bytes[1]
}

/// A frame on another channel.
pub(crate) fn on_channel(item: Item, channel: u8) -> Text
    requires kind { item.kind ≡ Frame }
    requires short { length item.bytes < 2 ^ 31 }
    ensures text { result ≡ frame_text channel (behind_channel (shape_of item)) }
    ensures short { length result < 2 ^ 31 }
{
    let mut bytes = item.bytes;
    bytes.set(1, channel);
    bytes
}
