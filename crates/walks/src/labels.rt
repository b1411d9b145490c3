ghost use Rattle.walks.specs.Labels.{LabelsBound};

use crate::kind::CostKind;

/// Under this kind of cost, labels that are started and closed bound every legal walk from below.
///
/// So the least cost of a case can be shown by a table of labels, with no search.
pub fn labels_bound<K: CostKind>(kind: &K)
    ensures { LabelsBound (K.CostKind.meaning kind.now) }
{}
