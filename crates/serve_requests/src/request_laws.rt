ghost use Rattle.serve_requests.specs.Laws.{CallIsMade, ServingServes};

/// A server that serves requests step by step gives each its own reply, has no more calls open than it may, and pends only if it has
/// nothing to do.
pub fn serving_serves()
    ensures { ServingServes }
{}

/// A call that main has started is one of the export, with these tokens.
pub fn call_is_made()
    ensures { CallIsMade }
{}
