// What expressions come to, what is asked of a texture unit, and the two units.
#![tactic(auto)]

ghost use Rattle.std.specs.Prelude.{◌≡◌};
ghost use Rattle.units.specs.Requests.{Answers, Typed};

mod arithmetic;
mod colour;
mod echo;
mod lanes;
mod operations;
mod requests;
mod values;

pub use arithmetic::{bits_of_sint, divide, examples_stand, round, sint_of_bits, to_sint};
pub use colour::ColourUnit;
pub use echo::EchoUnit;
pub use lanes::{Lane, fill};
pub use operations::{cast_components, choose, clean, compose, divide_scalars, round_components};
pub use requests::{Level, Request, Sort};
pub use values::{Components, Lanes, Reference, Resource, Root, Value, Width, shape_of};

// A texture unit means a function from requests to answers; asking changes nothing.
pub trait TextureUnit {
    ghost answers: { Self → Answers };

    // A Depth or comparing request that is no gather is answered by one Float, others by four of the kind.
    ghost typed: { (u : Self) → Typed (answers u) };

    fn ask(&self, request: Request) -> Components
        ensures { result ≡ answers self.now request };
}
