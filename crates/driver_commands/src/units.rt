//! The limits of a unit's CDBs.
ghost use Rattle.std.specs.Prelude.{◌≡◌};
ghost use Rattle.region_state.specs.Shape.{IsWithinLimits};
ghost use Rattle.driver_commands.specs.Open.{limits_of};

use hpb_cdb::Limits;
use region_state::Shape;

/// The limits of the CDBs of a unit: how many blocks it has, and how many a region and a subregion have. It costs two
/// shifts.
pub fn limits_of(shape: Shape) -> Limits
    requires { IsWithinLimits shape }
    ensures { result ≡ limits_of shape }
{
    Limits {
        units: u64::from(shape.units),
        per_region: 1 << (shape.region_exp - 3),
        per_sub: 1 << (shape.sub_exp - 3),
    }
}
