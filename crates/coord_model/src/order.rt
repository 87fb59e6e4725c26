//! The meaning of under and over.
ghost use Rattle.coord_model.specs.Order.{UnderIsAtMostOver};

/// There are numbers under a curve's time and numbers over it, and none that is under lies above one that is
/// over. By the definitions of under and over alone; no enclosure is spoken of.
pub fn under_is_at_most_over()
    ensures { UnderIsAtMostOver }
{}
