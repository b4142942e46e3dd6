// What is asked of a texture unit, or listed for a store.
ghost use Rattle.std.specs.Prelude.{◌≡◌};
ghost use Rattle.units.specs.Requests.{is_gather, one_float};

use crate::values::{Components, Resource};
use records::{ImageDimension, ScalarKind, SwizzleComponent};

#[derive(Clone, Copy)]
pub enum Sort {
    Sample,
    Gather,
    Load,
    Store,
}

// The level of detail. A load has its Lod as Exact, or none.
#[derive(Clone, Copy)]
pub enum Level {
    Unstated,
    Auto,
    Zero,
    Bias(Components),
    Exact(Components),
    Gradient { x: Components, y: Components },
}

#[derive(Clone, Copy)]
pub struct Request {
    pub texture: Resource,
    pub sampler: Option<Resource>,
    pub sort: Sort,
    // the image's kind, Float for Depth
    pub kind: ScalarKind,
    pub dim: ImageDimension,
    pub depth: bool,
    // after the division, and without the layer
    pub coordinate: Components,
    pub layer: Option<Components>,
    pub gather: Option<SwizzleComponent>,
    pub sample: Option<Components>,
    pub offset: Option<Components>,
    pub level: Level,
    pub reference: Option<Components>,
    // what a store stores
    pub value: Option<Components>,
}

impl Sort {
    pub fn is_gather(self) -> bool
        ensures { result ≡ is_gather self }
    {
        matches!(self, Sort::Gather)
    }
}

impl Request {
    // Whether the answer is one Float; else it is four of the kind.
    pub fn one_float(self) -> bool
        ensures { result ≡ one_float self }
    {
        (self.depth || self.reference.is_some()) && !self.sort.is_gather()
    }
}
