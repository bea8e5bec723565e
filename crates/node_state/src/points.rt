// Points of a log.
ghost use Rattle.std.specs.Prelude.{◌≡◌};
ghost use Rattle.set_model.specs.Points.{earlier_of};

use rs_optime::OpTime;

/// The earlier of two points.
pub fn earlier(one: OpTime, other: OpTime) -> OpTime
    ensures { result ≡ earlier_of one other }
{
    if one < other { one } else { other }
}
