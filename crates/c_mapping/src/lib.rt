// A mapping and flags as the C calls have them: one number each.
#![tactic(auto)]

ghost use Rattle.std.specs.Prelude.{◌≡◌};
ghost use Rattle.c_mapping.specs.Mappings.{mapping_of};

use isdbs_points::Mapping;

// The mapping of a number.
pub fn mapping_of(mapping: u8) -> Mapping
    ensures { result ≡ mapping_of mapping }
{
    Mapping {
        conjugate: mapping % 2 == 1,
        qpsk_p1_on_q: mapping / 2 % 2 == 1,
        tc8psk_c1_is_y: mapping / 4 % 2 == 1,
    }
}
