//! Scripts for a run.

ghost use Rattle.std.specs.Prelude.{◌≡◌};
ghost use Rattle.ep_base.specs.Quorums.{size as size_with};
ghost use Rattle.ep_script.specs.Fits.{AllFit};

use crate::head::Head;
use crate::script_section::ScriptSection;
use ep_base::Size;
use std::marker::Model;

/// A script for a run: its head, and its sections. Each line of their agendas is for a replica of the cluster, names instances of
/// its replicas alone, and has a client of number 1 or more. Each line of their weather is for a frame between two replicas of the cluster, with a
/// count of 1 or more, and no two of one section are for one frame.
#[derive(Debug, Drop)]
pub struct RunScript {
    head: Head,
    sections: Vec<ScriptSection>,
}

impl Model for RunScript {
    ghost use Rattle.ep_base.specs.Quorums.{size as size_with};
    ghost use Rattle.ep_script.specs.Fits.{AllFit};
    ghost use Rattle.ep_script.specs.Plan.{RunPlan};

    ghost Value = { RunPlan };

    ghost view = { λ s. record { head = s.head; sections = s.sections.items } };

    ghost invariant = { λ s. AllFit (size_with s.head.faults) s.sections.items };
}

impl RunScript {
    pub(crate) fn new(head: Head, sections: Vec<ScriptSection>) -> RunScript
        requires { AllFit (size_with head.faults) sections.items }
        ensures { result ≡ record { head = head; sections = sections.items } }
    {
        RunScript { head, sections }
    }

    /// The size of the cluster.
    pub fn size(&self) -> Size
        ensures { result ≡ self.now.head.faults }
    {
        self.head.size()
    }

    /// The head.
    pub fn head(&self) -> &Head
        ensures { result.now ≡ self.now.head }
    {
        &self.head
    }

    /// The sections, in order. What follows the last line `section` is one if it has a line.
    pub fn sections(&self) -> &[ScriptSection]
        ensures value { result.now ≡ self.now.sections }
        ensures fit { AllFit (size_with self.now.head.faults) self.now.sections }
    {
        self.sections.as_slice()
    }
}
