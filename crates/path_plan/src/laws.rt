//! Laws: a call of one does nothing, and tells the caller's proof what it ensures.

ghost use Rattle.path_plan.specs.Sizes.{LabelsAreFew};

/// A chip has at most 64 labels for each pad, and five more.
pub fn labels_are_few()
    ensures { LabelsAreFew }
{}
