//! Which request a notify of the server names.
ghost use Rattle.std.specs.Prelude.{◌≡◌};
ghost use Rattle.std.specs.Option.{option_copied};

use rtsp_small::read_request_status;

/// Which request an end of stream names, by its field Request-Status (RFC 7826, 18.42).
#[derive(Clone, Copy, Debug, PartialEq, Eq)]
pub enum Names {
    /// None: the field is missing, or can't be read.
    Unsaid,
    /// The request with this number.
    This(u32),
}

impl Names {
    ghost use Rattle.session_two.specs.Ends.{names_in, end_counts};

    /// What a field Request-Status names, where there is one.
    pub fn read(value: Option<&[u8]>) -> Names
        ensures { result ≡ names_in (option_copied value.entry) }
    {
        let Some(value) = value else {
            return Names::Unsaid;
        };
        match read_request_status(value) {
            Some(number) => Names::This(number),
            None => Names::Unsaid,
        }
    }

    /// Whether an end of stream that names this counts, where the PLAY with this number runs.
    pub fn ends(self, running: Option<u32>) -> bool
        ensures { result ≡ end_counts running self }
    {
        match (running, self) {
            (None, _) => false,
            (Some(_), Names::Unsaid) => true,
            (Some(number), Names::This(named)) => named == number,
        }
    }
}
