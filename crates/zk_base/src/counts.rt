ghost use Rattle.std.specs.Prelude.{◌≡◌};
ghost use Rattle.zk_base.specs.Shelf.{HasRisen};

use crate::Fault;

/// How often an input has failed, an output has failed and an input was absent, and what the last
/// call of the shelf failed at. Each count stops at 2^64 - 1.
#[derive(Clone, Copy, Debug, Default, PartialEq, Eq)]
pub struct Counts {
    pub read_faults: u64,
    pub write_faults: u64,
    pub absences: u64,
    /// None where the last call didn't fail.
    pub last: Option<Fault>,
}

impl Counts {
    ghost use Rattle.zk_base.specs.Counts.{with_read_fault, with_write_fault, with_absence, without_fault};

    /// Takes the last fault away, as a call does that doesn't fail.
    pub fn clear_fault(&mut self)
        ensures { self.new ≡ without_fault self.old }
    {
        self.last = None;
    }

    /// Counts an input that failed.
    pub fn add_read_fault(&mut self)
        ensures counted { self.new ≡ with_read_fault self.old }
        ensures risen { HasRisen self.old.read_faults self.new.read_faults }
    {
        self.read_faults = self.read_faults.saturating_add(1);
        self.last = Some(Fault::Read);
    }

    /// Counts an output that failed.
    pub fn add_write_fault(&mut self)
        ensures counted { self.new ≡ with_write_fault self.old }
        ensures risen { HasRisen self.old.write_faults self.new.write_faults }
    {
        self.write_faults = self.write_faults.saturating_add(1);
        self.last = Some(Fault::Write);
    }

    /// Counts an input that was absent.
    pub fn add_absence(&mut self)
        ensures counted { self.new ≡ with_absence self.old }
        ensures risen { HasRisen self.old.absences self.new.absences }
    {
        self.absences = self.absences.saturating_add(1);
        self.clear_fault();
    }
}
