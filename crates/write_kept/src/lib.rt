// The conditions that the rule of each group keeps.
#![tactic(auto)]

ghost use Rattle.std.specs.Prelude.{◌≡◌, ◌≤◌, ◌<◌};
ghost use Rattle.write_kept.specs.Kept.{kept_head, KeptTable};
ghost use Rattle.mine_parts.specs.Layout.{room_in};

use mine_parts::ByPart;
use role_record::{ByPlace, ByPlaceMember, CountBySide, Links, Sizes};

// ---- what is kept

// The places that the rule of a head's group keeps; none where the part is no head.
fn kept_head<'a>(
    links: &'a Links,
    matches: &'a ByPlaceMember,
    knowing: &'a ByPlace,
    attributes: &'a CountBySide,
    sizes: Sizes,
    scratch: &'a [u64],
    i: usize,
) -> u64
    requires { (sizes.users ≤ 64) × (sizes.resources ≤ 64) × (i < room_in scratch.now) }
    ensures { result
        ≡ kept_head links.now matches.now knowing.now attributes.now
        sizes.users sizes.resources sizes.operations scratch.now i }
{
    if mine_parts::is_head(scratch, i) {
        let g = mine_parts::group_at(scratch, i);
        let level = mine_parts::level_at(scratch, i);
        return mine_thin::kept_places(links, matches, knowing, attributes, g, level, sizes);
    }
    0
}

// The places that each rule keeps, whatever the table held: worked out once, for measuring and for writing.
pub fn kept_places<'a>(
    links: &'a Links,
    matches: &'a ByPlaceMember,
    knowing: &'a ByPlace,
    attributes: &'a CountBySide,
    sizes: Sizes,
    scratch: &'a [u64],
    parts: usize,
    out: &mut ByPart,
)
    requires { (sizes.users ≤ 64) × (sizes.resources ≤ 64) × (parts ≤ room_in scratch.now) }
    ensures { KeptTable links.now matches.now knowing.now attributes.now
        sizes.users sizes.resources sizes.operations parts scratch.now out.new }
{
    for i in 0..parts {
        out[i] = kept_head(links, matches, knowing, attributes, sizes, scratch, i);
    }
}
