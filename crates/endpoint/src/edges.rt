//! What the definitions of an end come to, as theorems by computation.
ghost use Rattle.endpoint.specs.Edges.{Edges};
ghost use Rattle.endpoint.specs.Exchange.{Exchanged};

/// Edges of the rules.
// Stays: a landed theorem stands over the definitions that it landed with; that of `protocol` speaks of another definition of an end, so neither is an instance of the other.
pub fn edges_stand()
    ensures { Edges }
{}

/// A tap's way from the reader to the depot, with the depot's answer.
// Stays: a landed theorem stands over the definitions that it landed with; that of `protocol` speaks of another definition of an end, so neither is an instance of the other.
pub fn exchange_stands()
    ensures { Exchanged }
{}
