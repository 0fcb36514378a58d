// The laws of devices, each in the contract of a function that does nothing.
ghost use Rattle.device.specs.Laws.{RunLaws, ReadLaws};

#[tactic(auto, using(crate::proofs::Runs::run_laws))]
pub fn run_laws()
    ensures { RunLaws }
{}

#[tactic(auto, using(crate::proofs::Reading::read_laws))]
pub fn read_laws()
    ensures { ReadLaws }
{}
