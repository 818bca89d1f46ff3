//! What a run is given.
ghost use Rattle.std.specs.Prelude.{◌≡◌, ℕ, List, length, Option, IfOk, OnErr, is_ok};
ghost use Rattle.std.specs.Option.{option_map};
ghost use Rattle.gate_outside.specs.Causes.{Rose};
ghost use Rattle.gate_outside.specs.Doors.{IsNewLink};
ghost use Rattle.gate_transcript.specs.declared.entry.Entry.{Entry};
ghost use Rattle.serve_world.specs.declared.tally.WorldTally.{WorldTally};
ghost use Rattle.serve_world.specs.Tallies.{after_listen, after_dial, after_record, after_refusal, after_door, after_link, CountsRecorder};
ghost use Rattle.serve_world.specs.Worlds.{IsNewDoor, IsNewRecorder};

use crate::ThreadRefusal;
use gate_outside::{Door, Failed, Inlet, Outlet};
use gate_transcript::Recorder;

/// What lies outside of a run: it hands out the door of the players, the link to the server and the recorder, takes them
/// back, and counts what happened to them. Each call changes the counts that it names, and no other.
pub trait World {
    /// The door of the players.
    type Door: Door + Drop;

    /// What comes in by the link to the server.
    type UpIn: Inlet + Drop;

    /// What goes out by the link to the server.
    type UpOut: Outlet + Drop;

    /// What notes the transcript.
    type Rec: Recorder + Drop;

    /// What has happened so far.
    ghost tally: { Self → WorldTally };

    /// The entries of the recorder that came back last, where they are told, the newest first.
    ghost recorded: { Self → Option (List Entry) };

    /// How many links the door that came back last had still to give, where that is told.
    ghost links_left: { Self → Option ℕ };

    /// Opens the door at this address. It was not used before. A failure is counted.
    fn listen(&mut self, address: &[u8]) -> Result<Self::Door, Failed>
        ensures counts { tally self.new ≡ after_listen (is_ok result) (tally self.old) }
        ensures recorded { recorded self.new ≡ recorded self.old }
        ensures left { links_left self.new ≡ links_left self.old }
        ensures fresh { IfOk result (λ door. IsNewDoor (Self.Door.faults door) (Self.Door.ends door)) };

    /// Makes the link to the server that has this host and port. It was not used before. A failure is counted.
    fn dial(&mut self, host: &[u8], port: u16) -> Result<(Self::UpIn, Self::UpOut), Failed>
        ensures counts { tally self.new ≡ after_dial (is_ok result) (tally self.old) }
        ensures recorded { recorded self.new ≡ recorded self.old }
        ensures left { links_left self.new ≡ links_left self.old }
        ensures fresh { IfOk result (λ link.
            IsNewLink Self.UpIn.faults Self.UpIn.ends Self.UpOut.faults Self.UpOut.written link.0 link.1) };

    /// Makes the recorder that has this name. It was not used before. A failure is counted.
    fn recorder(&mut self, name: &[u8]) -> Result<Self::Rec, Failed>
        ensures counts { tally self.new ≡ after_record (is_ok result) (tally self.old) }
        ensures recorded { recorded self.new ≡ recorded self.old }
        ensures left { links_left self.new ≡ links_left self.old }
        ensures fresh { IfOk result (λ made. IsNewRecorder (Self.Rec.faults made) (Self.Rec.entries made)) };

    /// Counts that a thread was refused. No other call changes that count, and only a thread that was refused gives what this
    /// one asks for.
    fn refuse(&mut self, refusal: ThreadRefusal)
        ensures counts { tally self.new ≡ after_refusal (tally self.old) }
        ensures recorded { recorded self.new ≡ recorded self.old }
        ensures left { links_left self.new ≡ links_left self.old };

    /// Takes a door back, and counts its faults and its ends. From then on the world tells how many links it had still to give.
    fn close_door(&mut self, door: Self::Door)
        ensures counts { tally self.new
            ≡ after_door (Self.Door.faults door) (Self.Door.ends door) (tally self.old) }
        ensures recorded { recorded self.new ≡ recorded self.old }
        ensures left { links_left self.new ≡ option_map length (Self.Door.links door) };

    /// Takes a link to the server back, and counts the faults of both halves and the ends of what came in.
    fn close_link(&mut self, inward: Self::UpIn, outward: Self::UpOut)
        ensures counts { tally self.new
            ≡ after_link (Self.UpIn.faults inward) (Self.UpOut.faults outward) (Self.UpIn.ends inward)
            (tally self.old) }
        ensures recorded { recorded self.new ≡ recorded self.old }
        ensures left { links_left self.new ≡ links_left self.old };

    /// Takes a recorder back, closes it, and counts its faults and those of its closing, which fails only where the count
    /// rose.
    fn close_recorder(&mut self, recorder: Self::Rec) -> Result<(), Failed>
        ensures cause { OnErr result (Rose (tally self.old).record_faults (tally self.new).record_faults) }
        ensures counts { CountsRecorder (Self.Rec.faults recorder) (tally self.old) (tally self.new) }
        ensures recorded { recorded self.new ≡ Self.Rec.entries recorder }
        ensures left { links_left self.new ≡ links_left self.old };
}
