//! What goes up is read back from its bytes. This joins the machine of one connection and its books with the grammar of the
//! messages to the server, in which the claim has only texts.
#![tactic(auto)]

mod laws;

pub use laws::{
    a_request_that_goes_up_is_the_open_one, a_stream_has_one_reading, an_event_brings_one_item,
    each_header_that_goes_up_stands_once, what_goes_up_is_read_as_it_was_meant,
    what_is_read_of_a_connection_is_what_it_asks_alone,
};
