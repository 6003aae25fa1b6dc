//! Which queries need generators.

ghost use Rattle.std.specs.Prelude.{◌≡◌, map};
ghost use Rattle.std.specs.List.{list_any};
ghost use Rattle.rinv_script.specs.Queries.{need_generators, needs_generators};
ghost use Rattle.rinv_script.specs.Stored.{query_of};

use rinv_script::Query;

/// Whether the query does.
pub(crate) fn needs_generators(query: &Query) -> bool
    ensures { result ≡ needs_generators (query_of query.now) }
{
    match query {
        Query::Laws | Query::Invariant(_) => false,
        Query::Generators | Query::Rewrite(_) => true,
    }
}

/// Whether one of them does.
pub(crate) fn need_generators(queries: &[Query]) -> bool
    ensures { result ≡ need_generators (map query_of queries.now) }
{
    some_needs(queries)
}

// Whether one of the stored queries does.
fn some_needs(queries: &[Query]) -> bool
    ensures { result ≡ list_any (λ q. needs_generators (query_of q)) queries.now }
{
    queries.iter().any(|query| needs_generators(query))
}
