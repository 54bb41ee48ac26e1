//! Numbers that the formats rest on. Each function has an empty body, and its clause is checked by the prover.
ghost use Rattle.std.specs.Prelude.{◌≡◌, ◌≤◌, ◌+◌, ◌*◌};
ghost use Rattle.cm_spec.specs.declared.limits.TheConstants.{MAX_VERTICES};
ghost use Rattle.cm_route.specs.declared.route.TheConstants.{MAX_SHARDS, ROUTE_SEED};

/// The seed is the bytes `SHAR`, the first of them the highest.
pub fn route_seed()
    ensures { ROUTE_SEED ≡ ((83 * 256 + 72) * 256 + 65) * 256 + 82 }
{}

/// There are at most 4,096 shards, and a route has room for as many.
pub fn max_shards()
    ensures shards { MAX_SHARDS ≡ 4096 }
    ensures few { MAX_SHARDS ≤ MAX_VERTICES }
{}
