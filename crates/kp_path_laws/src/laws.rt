//! Laws of paths, over all objects and recent lists. Each is the contract of a function that does
//! nothing.
ghost use Rattle.kp_path_laws.specs.ChanceLaws as chances;
ghost use Rattle.kp_path_laws.specs.DrawLaws as draws;
ghost use Rattle.kp_path_laws.specs.EndpointLaws as endpoints;
ghost use Rattle.kp_path_laws.specs.SourceLaws as sources;
ghost use Rattle.kp_path_laws.specs.UnseenLaws as unseen;

/// Draws reach a decision by the pick alone: for any draws it is that of a path, and each path is
/// the decision for some draws.
pub fn draws_reach_paths()
    ensures by_place { draws.PathsByPlace }
    ensures decided { draws.DecidedByPath }
    ensures with_tables { draws.DecidedWithTables }
    ensures without_tables { draws.DecidedWithoutTables }
    ensures by_draws { draws.PathByDraws }
    ensures by_draws_of_objects { draws.PathWithTables }
{}

/// The chances of the places of a list add up to all that there is, and each differs from the exact
/// product of the thresholds by less than its place.
pub fn chances_of_places()
    ensures add_up { chances.ChancesAddUp }
    ensures share { chances.ChanceIsShare }
    ensures last { chances.LastTakesAll }
    ensures left { chances.LeftBesideRest }
    ensures exact { chances.ChanceBesideExact }
{}

/// What paths are sent to and the asides are the endpoints of the port of the door that answers,
/// each once.
pub fn endpoints_once()
    ensures reach { endpoints.PathsReach }
    ensures once { endpoints.EachEndpointOnce }
    ensures answered { endpoints.AnsweredWhereFits }
{}

/// Each address of a family is of the kind of exactly one source where a door fits. Kinds stand in
/// order, each by its least address. Addresses of one kind are served and decided alike, as their
/// source says.
pub fn sources_by_kind()
    ensures kind { sources.OneKind }
    ensures rise { sources.KindsRise }
    ensures least { sources.LeastOfKind }
    ensures source { sources.OneSource }
    ensures served { sources.ServedAlike }
    ensures decided { sources.DecidedAlike }
    ensures said { sources.AsSaid }
{}

/// The lines behind an explanation are the same for all recent lists that the packet's source can't
/// tell from each other.
pub fn lines_unseen()
    ensures { unseen.LinesUnseen }
{}
