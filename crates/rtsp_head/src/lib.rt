//! Heads of RTSP 1.0 and RTSP 2.0 messages: reading, checking, looking up and writing; and the
//! items of a stream.
#![tactic(auto)]

mod facts;
mod fault;
mod field_value;
mod further;
mod head;
mod head_fields;
mod header;
mod header_lines;
mod headers;
mod item;
mod line;
mod marks;
mod message;
mod start;
mod tally;

pub use facts::{
    CheckedFront, Facts, LENGTH_DIGITS, Length, check_front_counted, check_head, check_head_counted,
};
pub use fault::HeadFault;
pub use field_value::FieldValue;
pub use head::{Head, read_head};
pub use header::Header;
pub use headers::{Headers, MOST_HEADERS, said_where};
pub use item::{BadKind, Extent, Item, ItemKind, MOST_BODY, MOST_HEAD, Span};
pub use marks::HeadMarks;
pub use message::{push_end, push_header, push_message, push_number, written_messages};
pub use start::{GREATEST_CODE, LEAST_CODE, StartLine};
