// The parts of a labelling.
ghost use Rattle.std.specs.Prelude.{◌≡◌, option_map};
ghost use Rattle.al_overload.specs.Counts.{label_of, labels_of};
ghost use Rattle.al_overload.specs.Labels.{is_root_in, nth_label, number_in, operand_label};

use crate::{Labelled, LabelledTerms};

/// The number of the candidate at the head.
pub fn number_in(label: &Labelled) -> usize
    ensures { result ≡ number_in (label_of label.now) }
{
    match label {
        Labelled::HeadAs(number, _, _) => *number,
    }
}

/// Whether the candidate at the head is an operator of the root type.
pub fn is_root_in(label: &Labelled) -> bool
    ensures { result ≡ is_root_in (label_of label.now) }
{
    match label {
        Labelled::HeadAs(_, is_root, _) => *is_root,
    }
}

fn nth_label(labels: &LabelledTerms, position: usize) -> Option<&Labelled>
    ensures { option_map (λ label. label_of label.now) result ≡ nth_label position (labels_of labels.now) }
{
    let (mut rest, mut left) = (labels, position);
    while let LabelledTerms::MoreLabelled(label, more) = rest {
        if left == 0 {
            return Some(label);
        }
        left -= 1;
        rest = more;
    }
    None
}

/// The labelling of one of the operands, counted from 0.
pub fn operand_label(label: &Labelled, position: usize) -> Option<&Labelled>
    ensures { option_map (λ label. label_of label.now) result ≡ operand_label position (label_of label.now) }
{
    match label {
        Labelled::HeadAs(_, _, operands) => nth_label(operands, position),
    }
}
