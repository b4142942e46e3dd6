// A unit that answers one colour for each kind.
ghost use Rattle.std.specs.Prelude.{◌≡◌};
ghost use Rattle.units.specs.Requests.{clean};
ghost use Rattle.units.specs.Units.{colour_of, colour_answer, colour_typed};

use crate::TextureUnit;
use crate::operations::clean;
use crate::requests::Request;
use crate::values::{Components, Lanes, Width};
use records::ScalarKind;

#[derive(Clone, Copy)]
pub struct ColourUnit {
    pub float: [f32; 4],
    pub sint: [i32; 4],
    pub uint: [u32; 4],
}

impl ColourUnit {
    // There is no colour of Bool.
    fn lanes(&self, kind: ScalarKind) -> Lanes
        ensures { result ≡ colour_of self.now kind }
    {
        match kind {
            ScalarKind::Float => Lanes::Float(self.float),
            ScalarKind::Sint => Lanes::Sint(self.sint),
            ScalarKind::Uint => Lanes::Uint(self.uint),
            ScalarKind::Bool => Lanes::Bool([false; 4]),
        }
    }

    fn colour(&self, width: Width, kind: ScalarKind) -> Components
        ensures { result ≡ clean (record { width = width; lanes = colour_of self.now kind }) }
    {
        clean(Components {
            width,
            lanes: self.lanes(kind),
        })
    }
}

impl TextureUnit for ColourUnit {
    ghost answers = { colour_answer };

    ghost typed = { colour_typed };

    fn ask(&self, request: Request) -> Components {
        if request.one_float() {
            self.colour(Width::One, ScalarKind::Float)
        } else {
            self.colour(Width::Four, request.kind)
        }
    }
}
