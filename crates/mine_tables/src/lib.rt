// The miner's table of who meets whose value, filled from the tables of distinct values. Each pair of distinct values is looked at once, and
// its word is joined to the words of all who have the value.
#![tactic(auto)]

ghost use Rattle.std.specs.Prelude.{List, ◌≡◌, ℕ, ◌≤◌, ◌<◌};
ghost use Rattle.mine_matches.specs.Matches.{known_places, match_table};
ghost use Rattle.mine_tables.specs.Matching.{met_by_number};
ghost use Rattle.grant_joins.specs.Tables.{value_count};
ghost use Rattle.grant_distinct.specs.Distinct.{distinct_table, having_table};
ghost use Rattle.mine_tables.specs.Matching.{match_place, matches_by};

use role_record::{ByPlace, ByPlaceMember, BySide, RoleFile};

// Who meets the value number k of a place: of user sets whoever has one that contains it, of others whoever has it.
fn met_by<'a>(
    kinds: &'a BySide,
    distinct: &'a ByPlaceMember,
    having: &'a ByPlaceMember,
    place: usize,
    k: usize,
    count: usize,
) -> u64
    requires { (place < 14) × (k < 64) × (count ≡ value_count having.now place) }
    ensures { result ≡ met_by_number distinct.now having.now kinds.now place k }
{
    if grant_listed::lists_least(kinds, place) {
        return grant_joins::joined(
            distinct,
            having,
            place,
            count,
            true,
            true,
            true,
            distinct[RoleFile::MEMBERS * place + k],
        );
    }
    having[RoleFile::MEMBERS * place + k]
}

// The words of a place: those of whoever has a value, value by value.
fn match_place<'a>(
    knowing: &'a ByPlace,
    kinds: &'a BySide,
    distinct: &'a ByPlaceMember,
    having: &'a ByPlaceMember,
    place: usize,
    out: &mut ByPlaceMember,
)
    requires { place < 14 }
    ensures { out.new
        ≡ match_place distinct.now having.now knowing.now kinds.now place
        out.old }
{
    let count = grant_joins::number(having, place);
    for k in 0..count {
        let word = sets::meet(
            knowing[place],
            met_by(kinds, distinct, having, place, k, count),
        );
        // Nobody meets an unknown value, nor is met by one.
        grant_joins::spread(
            place,
            sets::meet(knowing[place], having[RoleFile::MEMBERS * place + k]),
            word,
            out,
        );
    }
}

// Who meets whose value, whatever the table held, if the other tables are those of some values: word 64 * place + who. Known says of each
// place who knows its attribute.
pub fn matches<'a>(
    knowing: &'a ByPlace,
    kinds: &'a BySide,
    distinct: &'a ByPlaceMember,
    having: &'a ByPlaceMember,
    out: &mut ByPlaceMember,
)
    ensures { (known values holders : List ℕ)
        → (users resources roles : ℕ)
        → users ≤ 64
        → resources ≤ 64
        → knowing.now ≡ known_places users resources known
        → distinct.now ≡ distinct_table known values holders users resources roles
        → having.now ≡ having_table known values holders users resources roles
        → out.new ≡ match_table kinds.now known values holders users resources roles }
{
    role_record::clear(out);
    for place in 0..RoleFile::PLACES {
        match_place(knowing, kinds, distinct, having, place, out);
    }
}
