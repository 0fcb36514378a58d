// The laws of this crate's definitions.
ghost use Rattle.label.specs.Laws.{LabelLaws};

// What is written is read back: positions and labels.
pub fn label_laws()
    ensures { LabelLaws }
{}
