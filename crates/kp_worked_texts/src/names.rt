//! Names of chains.
ghost use Rattle.kp_worked_texts.specs.ChainNames as names;

/// Names of the chains of a port and of an endpoint, and chains of one name.
pub fn worked_chains()
    ensures port { names.OfPort }
    ensures endpoint { names.OfEndpoint }
    ensures clash { names.FirstClash }
{}
