//! What the definitions of an end come to, as theorems by computation.
ghost use Rattle.protocol.specs.Edges.{Edges};
ghost use Rattle.protocol.specs.Exchange.{Exchanged};

/// Edges of the rules.
pub fn edges_stand()
    ensures { Edges }
{}

/// A tap's way from the reader to the depot, with the depot's answer.
pub fn exchange_stands()
    ensures { Exchanged }
{}
