// How many expressions an instruction appends.
ghost use Rattle.std.specs.Prelude.{◌≡◌, ◌≤◌};
ghost use Rattle.images.specs.Records.{place_count, layer_count, projected_count, split_count, reference_count, sample_count, one_or_two, load_count, widened_count, store_count};

use crate::plans::{ExtraCoordinate, LoadPlan, SamplePlan, Split, StorePlan};
use records::{ExpressionHandle, ImageDimension, VectorSize};

// Of the place of an arrayed image.
pub fn place_count(dim: ImageDimension) -> u32
    ensures value { result ≡ place_count dim }
    ensures bound { result ≤ 4 }
{
    match dim {
        ImageDimension::D1 => 1,
        ImageDimension::D2 => 3,
        ImageDimension::D3 | ImageDimension::Cube => 4,
    }
}

fn layer_count(float: bool) -> u32
    ensures value { result ≡ layer_count float }
    ensures bound { result ≤ 3 }
{
    if float { 3 } else { 2 }
}

fn projected_count(dim: ImageDimension) -> u32
    ensures value { result ≡ projected_count dim }
    ensures bound { result ≤ 8 }
{
    match dim {
        ImageDimension::D1 => 3,
        ImageDimension::D2 => 6,
        ImageDimension::D3 | ImageDimension::Cube => 8,
    }
}

impl Split {
    pub fn count(self) -> u32
        ensures value { result ≡ split_count self }
        ensures bound { result ≤ 8 }
    {
        match self.extra {
            ExtraCoordinate::ArrayLayer => place_count(self.dim) + layer_count(self.float),
            ExtraCoordinate::Projection => projected_count(self.dim),
            ExtraCoordinate::Garbage => u32::from(!self.exact),
        }
    }

    // Of the division of a depth reference.
    pub fn reference_count(self, reference: Option<ExpressionHandle>) -> u32
        ensures value { result ≡ reference_count self reference }
        ensures bound { result ≤ 2 }
    {
        match (reference, self.extra) {
            (Some(_), ExtraCoordinate::Projection) => 2,
            _ => 0,
        }
    }
}

// Of the expression that asks, and its Splat if it has one.
fn one_or_two(splat: Option<VectorSize>) -> u32
    ensures value { result ≡ one_or_two splat }
    ensures bound { result ≤ 2 }
{
    1 + u32::from(splat.is_some())
}

impl SamplePlan {
    pub fn count(self) -> u32
        ensures value { result ≡ sample_count self }
        ensures bound { result ≤ 12 }
    {
        self.split.count() + self.split.reference_count(self.reference) + one_or_two(self.splat)
    }
}

impl LoadPlan {
    pub fn count(self) -> u32
        ensures value { result ≡ load_count self }
        ensures bound { result ≤ 10 }
    {
        self.split.count() + one_or_two(self.splat)
    }
}

fn widened_count(size: Option<VectorSize>) -> u32
    ensures value { result ≡ widened_count size }
    ensures bound { result ≤ 1 }
{
    if matches!(size, Some(VectorSize::Quad)) {
        0
    } else {
        1
    }
}

impl StorePlan {
    pub fn count(self) -> u32
        ensures value { result ≡ store_count self }
        ensures bound { result ≤ 9 }
    {
        self.split.count() + widened_count(self.size)
    }
}
