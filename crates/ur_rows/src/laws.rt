ghost use Rattle.ur_rows.specs.Laws.{ConcatIsUnion, MapOfConcat, MapOfMap, MapOfIdentity};

use ur_syntax::ConEnv;

/// `++` is associative and commutative with unit `[]`.
pub fn concat_is_union(env: &ConEnv)
    ensures { ConcatIsUnion env.now }
{}

/// A map of a union is the union of the maps.
pub fn map_of_concat(env: &ConEnv)
    ensures { MapOfConcat env.now }
{}

/// A map of a map is the map of the composition.
pub fn map_of_map(env: &ConEnv)
    ensures { MapOfMap env.now }
{}

/// The map of the identity changes nothing.
pub fn map_of_identity(env: &ConEnv)
    ensures { MapOfIdentity env.now }
{}
