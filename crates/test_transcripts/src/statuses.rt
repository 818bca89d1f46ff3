//! How a run ended, and how that is told.

use gate_transcript::BadEntryKind;
use gateway_claim::{FramingFault, UpCause};
use rtsp_head::BadKind;
use run_status::Status;
use std::alloc::Global;
use test_text::CaseAnswer;

/// Ends of runs.
const ENDS: [Status; 38] = [
    Status::Done,
    Status::Usage { place: 3 },
    Status::SourceFault,
    Status::SinkFault,
    Status::BadTranscript {
        place: 17,
        kind: BadEntryKind::Magic,
    },
    Status::BadTranscript {
        place: 17,
        kind: BadEntryKind::Kind,
    },
    Status::BadTranscript {
        place: 17,
        kind: BadEntryKind::Conn,
    },
    Status::BadTranscript {
        place: 17,
        kind: BadEntryKind::Length,
    },
    Status::BadTranscript {
        place: 17,
        kind: BadEntryKind::Cut,
    },
    Status::Memory,
    Status::TooLong,
    Status::ListenFault,
    Status::RecordFault,
    Status::CrewRefused,
    Status::AcceptFault,
    Status::DialFault,
    Status::NumbersSpent,
    Status::Upstream {
        cause: UpCause::UnknownReply(9),
    },
    Status::Upstream {
        cause: UpCause::BadGrant(1),
    },
    Status::Upstream {
        cause: UpCause::SessionTaken(2),
    },
    Status::Upstream {
        cause: UpCause::Framing(FramingFault::Bad(BadKind::Start)),
    },
    Status::Upstream {
        cause: UpCause::Framing(FramingFault::Cseq),
    },
    Status::Upstream {
        cause: UpCause::UpFull,
    },
    Status::Upstream {
        cause: UpCause::Framing(FramingFault::Bad(BadKind::Head)),
    },
    Status::Upstream {
        cause: UpCause::Framing(FramingFault::Bad(BadKind::Control)),
    },
    Status::Upstream {
        cause: UpCause::Framing(FramingFault::Bad(BadKind::Colon)),
    },
    Status::Upstream {
        cause: UpCause::Framing(FramingFault::Bad(BadKind::Name)),
    },
    Status::Upstream {
        cause: UpCause::Framing(FramingFault::Bad(BadKind::Many)),
    },
    Status::Upstream {
        cause: UpCause::Framing(FramingFault::Bad(BadKind::Length)),
    },
    Status::Upstream {
        cause: UpCause::Framing(FramingFault::Bad(BadKind::Body)),
    },
    Status::Upstream {
        cause: UpCause::Framing(FramingFault::Version),
    },
    Status::Upstream {
        cause: UpCause::UnknownReply(0),
    },
    Status::Upstream {
        cause: UpCause::UnknownReply(999_999_999),
    },
    Status::Upstream {
        cause: UpCause::SessionTaken(20),
    },
    Status::Upstream {
        cause: UpCause::CseqSpent,
    },
    Status::Upstream {
        cause: UpCause::Ended,
    },
    Status::Upstream {
        cause: UpCause::ReadFault,
    },
    Status::Upstream {
        cause: UpCause::WriteFault,
    },
];

/// Tells the exit status and the fault line of a run that ended so.
pub fn tell_status(alloc: Global, line: &[u8], answer: &mut CaseAnswer) {
    for status in ENDS {
        let mut name = CaseAnswer::new(alloc);
        name.push_debug(alloc, &status);
        if name.as_bytes() == line {
            answer.push_number(u64::from(status.exit_code()));
            answer.push(b" ");
            answer.push_display(alloc, &status);
            return;
        }
    }
    answer.unreadable();
}
