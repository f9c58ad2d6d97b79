//! The laws of the range rule: why a place or an end of a node is Bad.
ghost use Rattle.scheme.specs.Causes.{PlacesHaveCauses, EndsHaveCauses};
ghost use Rattle.scheme.specs.NodeCauses.{NodesHaveCauses};

/// The range rule of places: an inner place is Bad exactly where its own point was Bad, a
/// characteristic that it reads is missing, since its point is Bad or it is out of range, or a head,
/// flow or volume of its own leaves its range. The growth of its cavity is no cause.
pub fn bad_places_have_causes()
    ensures { PlacesHaveCauses }
{}

/// The range rule of ends: every end of a node is Bad exactly where the state of the node is.
pub fn bad_ends_have_causes()
    ensures { EndsHaveCauses }
{}

/// The range rule of nodes: a node is Bad exactly where its old state was Bad and its kind reads it, a
/// characteristic that it reads is missing, a valve is over its limit, a vessel's volume is outside its
/// gas table, or a head, flow or volume of its own leaves its range. Its growth is no cause.
pub fn bad_nodes_have_causes()
    ensures { NodesHaveCauses }
{}
