//! Laws of the search, each the contract of a function that does nothing.
ghost use Rattle.yf_discovery.specs.OneDiscovery.{OneDiscovery};

/// The folders decide the result: the same folders have only one nearest settings file.
pub fn nearest_is_one()
    ensures { OneDiscovery }
{}
