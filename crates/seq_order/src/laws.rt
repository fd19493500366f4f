// Laws of the canonical order.
ghost use Rattle.seq_order.specs.Closed.{EndsOnlyWithDue};

/// Where all that comes before a done event is done, the canonical order ends only when each due event is done (own).
pub fn law_canonical_end()
    ensures { EndsOnlyWithDue }
{}
