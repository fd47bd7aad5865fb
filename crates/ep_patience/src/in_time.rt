//! A law: what comes in time is neither given up nor recovered.

ghost use Rattle.ep_patience.specs.InTime.{BeginsPatient, StaysPatient};

/// The first turn in which an instance is open asks for nothing of it, unless it waits in vain, and begins its wait: of an own one the greatest time-out of
/// its members.
pub fn begins_patient()
    ensures { BeginsPatient }
{}

/// While such a wait isn't over, by the replica's own time, and its instance doesn't wait in vain, no turn asks for it: so what is committed before is neither
/// given up nor recovered. What is measured in between, whoever is lost and reached, and however often others' recoveries put it off, changes nothing of that.
pub fn stays_patient()
    ensures { StaysPatient }
{}
