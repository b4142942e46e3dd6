// A unit that answers the coordinate, filled with zeros, or zeros where the kinds differ.
ghost use Rattle.std.specs.Prelude.{◌≡◌};
ghost use Rattle.units.specs.Units.{no_lanes, echo_lanes, echo_answer, echo_typed};

use crate::TextureUnit;
use crate::lanes::Lane;
use crate::operations::clean;
use crate::requests::Request;
use crate::values::{Components, Lanes, Width};
use records::ScalarKind;

#[derive(Clone, Copy)]
pub struct EchoUnit {}

fn no_lanes(kind: ScalarKind) -> Lanes
    ensures { result ≡ no_lanes kind }
{
    match kind {
        ScalarKind::Float => Lanes::Float([0.0; 4]),
        ScalarKind::Sint => Lanes::Sint([0; 4]),
        ScalarKind::Uint => Lanes::Uint([0; 4]),
        ScalarKind::Bool => Lanes::Bool([false; 4]),
    }
}

fn echo_lanes(kind: ScalarKind, coordinate: Components) -> Lanes
    ensures { result ≡ echo_lanes kind coordinate.width coordinate.lanes }
{
    if coordinate.lanes.kind() == kind {
        clean(coordinate).lanes
    } else {
        no_lanes(kind)
    }
}

impl TextureUnit for EchoUnit {
    ghost answers = { echo_answer };

    ghost typed = { echo_typed };

    fn ask(&self, request: Request) -> Components {
        let lanes = echo_lanes(request.kind, request.coordinate);
        if request.one_float() {
            Components::float(f32::first(lanes))
        } else {
            Components {
                width: Width::Four,
                lanes,
            }
        }
    }
}
