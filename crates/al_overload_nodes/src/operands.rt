// The labellings of operands, one after another.
ghost use Rattle.std.specs.Prelude.{◌≡◌, option_map};
ghost use Rattle.al_overload.specs.Counts.{label_of, labels_of};
ghost use Rattle.al_overload_nodes.specs.OperandLabels.{labels_after, next_label, operand_labels};

use al_overload::{Labelled, LabelledTerms};

/// The labellings of all operands.
pub(crate) fn operand_labels(label: &Labelled) -> &LabelledTerms
    ensures { labels_of result.now ≡ operand_labels (label_of label.now) }
{
    match label {
        Labelled::HeadAs(_, _, operands) => operands,
    }
}

/// The labelling of the operand that comes next, if there is one.
pub(crate) fn next_label(labels: &LabelledTerms) -> Option<&Labelled>
    ensures { option_map (λ label. label_of label.now) result ≡ next_label (labels_of labels.now) }
{
    match labels {
        LabelledTerms::MoreLabelled(label, _) => Some(label),
        LabelledTerms::NoLabelled => None,
    }
}

/// The labellings of the operands after the next one.
pub(crate) fn labels_after(labels: &LabelledTerms) -> &LabelledTerms
    ensures { labels_of result.now ≡ labels_after (labels_of labels.now) }
{
    match labels {
        LabelledTerms::MoreLabelled(_, others) => others,
        LabelledTerms::NoLabelled => labels,
    }
}
