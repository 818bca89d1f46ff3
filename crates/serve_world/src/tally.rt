//! What has happened to a world, in counts.
ghost use Rattle.std.specs.Prelude.{◌≡◌};
ghost use Rattle.serve_world.specs.Tallies.{no_tally, after_listen, after_dial, after_record, after_refusal, after_door, after_link, after_recorder};

/// What has happened to a world so far. Each count stays at its last value.
#[derive(Clone, Copy, Debug, PartialEq, Eq)]
pub struct WorldTally {
    /// How many doors were opened.
    pub listens: u64,
    /// How often a door was asked for and not opened.
    pub listens_failed: u64,
    /// How many links to the server were made.
    pub dials: u64,
    /// How often a link to the server was asked for and not made.
    pub dials_failed: u64,
    /// How many recorders were made.
    pub records: u64,
    /// How often a recorder was asked for and not made.
    pub records_failed: u64,
    /// How often the doors that came back had failed.
    pub door_faults: u64,
    /// How often the doors that came back had told that no link comes any more.
    pub door_ends: u64,
    /// How often the links to the server that came back had failed, in both halves.
    pub link_faults: u64,
    /// How often what came in by the links to the server that came back had ended.
    pub link_ends: u64,
    /// How often the recorders that came back had failed.
    pub record_faults: u64,
    /// How many threads were refused.
    pub crew_refusals: u64,
}

impl WorldTally {
    /// The counts of a world to which nothing has happened.
    pub fn new() -> WorldTally
        ensures { result ≡ no_tally }
    {
        WorldTally {
            listens: 0,
            listens_failed: 0,
            dials: 0,
            dials_failed: 0,
            records: 0,
            records_failed: 0,
            door_faults: 0,
            door_ends: 0,
            link_faults: 0,
            link_ends: 0,
            record_faults: 0,
            crew_refusals: 0,
        }
    }

    /// Counts that a door was asked for, and opened or not.
    pub fn add_listen(&mut self, opened: bool)
        ensures { self.new ≡ after_listen opened self.old }
    {
        if opened {
            self.listens = self.listens.saturating_add(1);
        } else {
            self.listens_failed = self.listens_failed.saturating_add(1);
        }
    }

    /// Counts that a link to the server was asked for, and made or not.
    pub fn add_dial(&mut self, made: bool)
        ensures { self.new ≡ after_dial made self.old }
    {
        if made {
            self.dials = self.dials.saturating_add(1);
        } else {
            self.dials_failed = self.dials_failed.saturating_add(1);
        }
    }

    /// Counts that a recorder was asked for, and made or not.
    pub fn add_record(&mut self, made: bool)
        ensures { self.new ≡ after_record made self.old }
    {
        if made {
            self.records = self.records.saturating_add(1);
        } else {
            self.records_failed = self.records_failed.saturating_add(1);
        }
    }

    /// Counts that a thread was refused.
    pub fn add_refusal(&mut self)
        ensures { self.new ≡ after_refusal self.old }
    {
        self.crew_refusals = self.crew_refusals.saturating_add(1);
    }

    /// Counts what had happened to a door that came back.
    pub fn add_door(&mut self, faults: u64, ends: u64)
        ensures { self.new ≡ after_door faults ends self.old }
    {
        self.door_faults = self.door_faults.saturating_add(faults);
        self.door_ends = self.door_ends.saturating_add(ends);
    }

    /// Counts what had happened to the two halves of a link that came back.
    pub fn add_link(&mut self, in_faults: u64, out_faults: u64, ends: u64)
        ensures { self.new ≡ after_link in_faults out_faults ends self.old }
    {
        let faults = in_faults.saturating_add(out_faults);
        self.link_faults = self.link_faults.saturating_add(faults);
        self.link_ends = self.link_ends.saturating_add(ends);
    }

    /// Counts what had happened to a recorder that came back.
    pub fn add_recorder(&mut self, faults: u64)
        ensures { self.new ≡ after_recorder faults self.old }
    {
        self.record_faults = self.record_faults.saturating_add(faults);
    }
}
